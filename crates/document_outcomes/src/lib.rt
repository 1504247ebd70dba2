#![tactic(auto)]

// What follows from the definition of a message's outcome, whatever its operation; there is no code in it.
