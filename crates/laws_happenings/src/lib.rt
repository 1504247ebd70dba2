#![tactic(auto)]

// What follows from the definition of what happens to a gate: demand 3 and the recorder's history of the definition; nothing runs.
