// The application command in the target's state: which of four phases it is in. Its bytes stand in the block, behind these.
#![tactic(auto)]

// Before any command.
pub const NONE: u8 = 0;

// Accepted, and new to the gate's own program.
pub const WAITING: u8 = 1;

// Collected, and its result is not in.
pub const COLLECTED: u8 = 2;

// Its result is in.
pub const ENDED: u8 = 3;

// The largest result; what 0xC6 answers before any command, and until a result is in.
pub const MOST_RESULT: u8 = 0xFD;

pub const NO_COMMAND: u8 = 0xFF;

pub const NO_RESULT: u8 = 0xFE;
