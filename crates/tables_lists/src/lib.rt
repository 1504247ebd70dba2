// A list of tables over the memory, checked before it is registered.
#![tactic(auto)]

mod entries;
mod pairs;
mod places;

pub use pairs::is_list_good;
