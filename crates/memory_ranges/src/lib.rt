// The 16,384 bytes that are lent at each call: ranges, the numbers they hold, plain stores.
#![tactic(auto)]

mod ranges;
mod stores;
mod values;

pub use ranges::{
    BUFFER_BEGIN, BUFFER_SIZE, CALIBRATION_END, MEMORY_END, RECORDED_END, VARIABLES_END,
    may_be_read, may_be_recorded, may_be_written, within,
};
pub use stores::copy_in;
pub use values::{number, number_at};
