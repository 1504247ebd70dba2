// The functions of the second port: what each does to the memory, and what it answers.
#![tactic(auto)]

mod carrying;
mod telling;

pub use carrying::carry_out;
pub use telling::{tell, tell_exception};
