#![tactic(auto)]

// What a byte makes of the target's state: definitions and laws alone, and nothing runs.
