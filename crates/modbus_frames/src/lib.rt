// What a frame of the second port says: whether it gets silence, which function it asks for, and with which exception it is refused.
#![tactic(auto)]

mod addresses;
mod exceptions;
mod fields;
mod silence;
mod values;

pub use exceptions::{Exception, exception_to};
pub use fields::{function_of, word_in};
pub use silence::is_silenced;
