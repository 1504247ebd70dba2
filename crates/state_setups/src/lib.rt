// An accepted setup, stored where scope and recorder lie. Its data stand in the same block, in front of all that is stored, or are lent beside it.
#![tactic(auto)]

mod parts;
mod recording;
mod scoping;

pub use parts::{complete_definitions, store_variables};
pub use recording::{prepare_run, store_numbers, store_prepared};
pub use scoping::store_scope;
