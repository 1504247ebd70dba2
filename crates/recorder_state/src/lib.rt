// The recorder between its ticks: preparing, start, stop, status and start index.
#![tactic(auto)]

mod calls;
mod preparing;
mod state;

pub use preparing::prepare_status;
pub use state::Recorder;
