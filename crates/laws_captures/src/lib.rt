#![tactic(auto)]

// What a capture lists is what the receiver answers: definitions and laws alone. The engine knows nothing of the receiver, and these laws
// know nothing of the engine, only of what it lists.
