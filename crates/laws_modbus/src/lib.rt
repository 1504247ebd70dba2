#![tactic(auto)]

// What follows from the definition of the second port, whatever a frame asks for; there is no code in it.
