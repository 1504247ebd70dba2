#![tactic(auto)]

// The calls that a gate makes, as one table, and what follows of each from its promise: definitions and laws alone.
