// The calls that include/log_gate.h declares, for programs in Rattle; `log_gate_c` exports them to C. A state is a block of bytes. Each
// call is one of the crates below, under the name and with the promise that it has there.
#![tactic(auto)]

mod application;
mod ends;
mod lengths;
mod names;
mod panel;
mod second;
mod target;

pub use application::{log_gate_collect, log_gate_report};
pub use ends::{
    log_gate_reader_begin, log_gate_reader_byte, log_gate_write_answer, log_gate_write_command,
};
pub use lengths::{
    LOG_GATE_ANSWER_ROOM, LOG_GATE_MEMORY, LOG_GATE_MODBUS_ROOM, LOG_GATE_READER, LOG_GATE_STATE,
};
pub use names::log_gate_register;
pub use panel::{log_gate_prepare, log_gate_start};
pub use second::log_gate_modbus;
pub use target::{log_gate_block, log_gate_byte, log_gate_check, log_gate_reset, log_gate_tick};
