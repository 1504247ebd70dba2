// The trigger: whether its variable is at or beyond the threshold, or reaches it from one set to the next, as the sign field reads both.
#![tactic(auto)]

mod edges;
mod signed;

pub use edges::Trigger;
