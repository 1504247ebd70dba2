// The other end of the cable: the writer of command messages.
#![tactic(auto)]

mod command;

pub use command::write_command;
