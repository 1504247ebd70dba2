// The other end of the cable: what a byte makes of the reader of answers.
#![tactic(auto)]

mod head;

pub use head::{Asked, Head, Stepped};
