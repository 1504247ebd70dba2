// The C boundary: what include/log_gate.h declares. A slice crosses as a pointer and a length, a state as a block of bytes. Each export
// is the call of `log_gate` that has its name, with the same promise.
#![tactic(auto)]

mod application;
mod ends;
mod names;
mod panel;
mod second;
mod target;
