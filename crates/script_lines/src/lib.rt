// Scripts come in line by line, and what came of them goes out.
#![tactic(auto)]

pub mod input;
pub mod output;
