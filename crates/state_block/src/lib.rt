// The target's state as a block of bytes: read and written in place.
#![tactic(auto)]

mod places;
mod reading;
mod writing;

pub use places::{
    APPLICATION, BODY, COMMAND, COUNT, DIVIDER, LIST, MODE, POST_TRIGGER, READY, RECORDED,
    RECORDED_DEFINITIONS, RESULT, SAMPLES, SCOPE, SCOPE_DEFINITIONS, SIGN, STATE_LENGTH, TABLES,
    THRESHOLD, TRIGGER_ADDRESS, TRIGGER_SIZE, WAIT,
};
pub use reading::{is_long_enough, plan_in, receiver_in, recorder_in, recorder_runs, run_in};
pub use writing::{put_numbers, put_receiver, put_run, reset};
