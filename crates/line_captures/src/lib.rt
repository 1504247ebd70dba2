// A whole capture of the line, read straight from the pairing rule: a cursor goes over the bytes once, never back, and no state is
// kept between them. It knows nothing of the receiver, so that one can check the other.
#![tactic(auto)]

pub mod entries;
pub mod messages;
pub mod tokens;
pub mod walk;
