// The numbers of the protocol: what is known of each of the 256 commands, the statuses, the numbers with which calls refuse, and the
// limits of a message and its answer.
#![tactic(auto)]

mod calls;
mod limits;
mod reading;
mod statuses;
mod table;

pub use calls::{Refusal, TAKEN, taken_number};
pub use limits::{ANSWER_ROOM, FIRST_FAST, MOST_DATA, MOST_DATA_BYTE, fast_length};
pub use statuses::{
    DONE, LAYOUT_WRONG, NOT_SERVED, RANGE_WRONG, RECORDER_STOPPED, Status, outcome_number,
};
pub use table::{data_length, service_of};
