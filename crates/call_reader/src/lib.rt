// The answer reader over its block of lent bytes: a reading begins, and a byte of the line.
#![tactic(auto)]

mod calls;
mod head;
mod places;

pub use calls::{ReadByte, begin, read};
pub use places::READER_LENGTH;
