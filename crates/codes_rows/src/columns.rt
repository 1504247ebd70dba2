// The columns of the table of commands. A row takes one number from each, and each has its own bits, so that | puts them together: a
// row is 2 bytes of read-only memory, where a struct of five fields would take 5.

// ---- the operation, lowest, so that its number stands as it is; there is room for 64
pub const DESCRIBE: u16 = 0;

pub const DESCRIBE_BRIEFLY: u16 = 1;

pub const READ: u16 = 2;

pub const WRITE: u16 = 3;

pub const WRITE_MASKED: u16 = 4;

pub const SET_UP_SCOPE: u16 = 5;

pub const READ_SCOPE: u16 = 6;

pub const PREPARE_AND_START: u16 = 7;

pub const START: u16 = 8;

pub const STOP: u16 = 9;

pub const STATUS: u16 = 10;

pub const QUERY_BUFFER: u16 = 11;

pub const SEND_COMMAND: u16 = 12;

pub const COMMAND_RESULT: u16 = 13;

pub const TELL_TABLE: u16 = 14;

pub const MEASURE_STRING: u16 = 15;

// ---- the command's own size
pub const SIZE: u16 = 64;

pub const SIZE_1: u16 = SIZE;

pub const SIZE_2: u16 = 2 * SIZE;

pub const SIZE_4: u16 = 4 * SIZE;

// ---- addresses of 4 bytes
pub const EX: u16 = 512;

// ---- the data length: so many bytes, or as many as the next literal tells
pub const LENGTH: u16 = 1024;

pub const DATA_0: u16 = 0;

pub const DATA_2: u16 = 2 * LENGTH;

pub const DATA_4: u16 = 4 * LENGTH;

pub const DATA_6: u16 = 6 * LENGTH;

pub const TOLD: u16 = 7 * LENGTH;

// ---- the kind, highest, so that a comparison tells it
pub const UNSERVED: u16 = 0;

pub const FAST: u16 = 8192;

pub const STANDARD: u16 = 16384;
