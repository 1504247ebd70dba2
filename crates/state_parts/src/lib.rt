#![tactic(auto)]

// The target's state between two calls: definitions, bounds and laws alone, and nothing runs.
