// A recorder's setup: the plan in its data part, and the first refusal that applies.
#![tactic(auto)]

mod fields;
mod refusals;

pub use fields::{head_width, read_plan};
pub use refusals::setup_status;
