// Variable definitions as a setup's data part holds them, read one after the other. What they come to is crates/variables_surveys.
#![tactic(auto)]

mod reader;

pub use reader::{Reader, address_width};
