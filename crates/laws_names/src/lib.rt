#![tactic(auto)]

// What follows from the definition of the answers: the names are found over the port; nothing runs.
