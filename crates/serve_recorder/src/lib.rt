// The recorder in the block that holds the state, as its commands ask for it: each takes out what it looks at, and stores what it
// changes. What such a command leaves is said here once for every instrument (specs/Operates.antt).
#![tactic(auto)]

mod recording;

pub use recording::{prepare_and_start, query_buffer, start, status, stop};
