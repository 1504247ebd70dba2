// The scope's reading, in the block that holds the state.
#![tactic(auto)]

mod reading;
mod values;

pub use reading::read_scope;
