// The words of a script's line, and what they stand for.
#![tactic(auto)]

pub mod operands;
pub mod words;
