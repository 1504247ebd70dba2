#![tactic(auto)]

// Both ends of the line: what a refusal of the writers and of the answer reader leaves, that each promise has one outcome, and what a
// reading comes to. Definitions and laws alone.
