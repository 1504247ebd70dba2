// What a recorder's setup fixes: the plan, and the bounds of its trigger.
#![tactic(auto)]

mod bounds;
mod plan;

pub use bounds::{does_fit, is_trigger_size, is_trigger_sound};
pub use plan::Plan;
