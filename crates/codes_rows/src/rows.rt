// The rows of the table of commands: a number for each, and what stands in it, column by column.
ghost use Rattle.std.specs.Prelude.{◌≡◌};
ghost use Rattle.codes_rows.specs.Rows.{row_at};

use crate::columns::{
    COMMAND_RESULT, DATA_0, DATA_2, DATA_4, DATA_6, DESCRIBE, DESCRIBE_BRIEFLY, EX, FAST,
    MEASURE_STRING, PREPARE_AND_START, QUERY_BUFFER, READ, READ_SCOPE, SEND_COMMAND, SET_UP_SCOPE,
    SIZE_1, SIZE_2, SIZE_4, STANDARD, START, STATUS, STOP, TELL_TABLE, TOLD, UNSERVED, WRITE,
    WRITE_MASKED,
};

// ---- the served commands, in the document's order: of so many bytes, or of a block, whose size the data begin with
pub const DESCRIPTION: u8 = 0;

pub const BRIEF_DESCRIPTION: u8 = 1;

pub const READ_1: u8 = 2;

pub const READ_2: u8 = 3;

pub const READ_4: u8 = 4;

pub const READ_1_EX: u8 = 5;

pub const READ_2_EX: u8 = 6;

pub const READ_4_EX: u8 = 7;

pub const WRITE_1: u8 = 8;

pub const WRITE_2: u8 = 9;

pub const WRITE_4: u8 = 10;

pub const WRITE_MASKED_1: u8 = 11;

pub const WRITE_MASKED_2: u8 = 12;

pub const READ_BLOCK: u8 = 13;

pub const READ_BLOCK_EX: u8 = 14;

pub const WRITE_BLOCK: u8 = 15;

pub const WRITE_BLOCK_EX: u8 = 16;

pub const WRITE_MASKED_BLOCK: u8 = 17;

pub const WRITE_MASKED_BLOCK_EX: u8 = 18;

pub const SCOPE_SETUP: u8 = 19;

pub const SCOPE_SETUP_EX: u8 = 20;

pub const SCOPE_READ: u8 = 21;

pub const RECORDER_SETUP: u8 = 22;

pub const RECORDER_SETUP_EX: u8 = 23;

pub const RECORDER_START: u8 = 24;

pub const RECORDER_STOP: u8 = 25;

pub const RECORDER_STATUS: u8 = 26;

pub const BUFFER_QUERY: u8 = 27;

pub const BUFFER_QUERY_EX: u8 = 28;

pub const COMMAND: u8 = 29;

pub const RESULT: u8 = 30;

pub const TABLE: u8 = 31;

pub const STRING_LENGTH: u8 = 32;

pub const STRING_LENGTH_EX: u8 = 33;

// ---- those not served: with so many data bytes, or, the last, with as many as the next literal tells
pub const NONE_0: u8 = 34;

pub const NONE_2: u8 = 35;

pub const NONE_4: u8 = 36;

pub const NONE_6: u8 = 37;

pub const NONE: u8 = 38;

// A match becomes a table in read-only memory, which no call has to build. The last arm is that of NONE.
pub fn row(number: u8) -> u16
    ensures { result ≡ row_at number }
{
    match number {
        DESCRIPTION => FAST | DATA_0 | DESCRIBE,
        BRIEF_DESCRIPTION => FAST | DATA_0 | DESCRIBE_BRIEFLY,
        READ_1 => FAST | DATA_2 | READ | SIZE_1,
        READ_2 => FAST | DATA_2 | READ | SIZE_2,
        READ_4 => FAST | DATA_2 | READ | SIZE_4,
        READ_1_EX => FAST | DATA_4 | READ | EX | SIZE_1,
        READ_2_EX => FAST | DATA_4 | READ | EX | SIZE_2,
        READ_4_EX => FAST | DATA_4 | READ | EX | SIZE_4,
        WRITE_1 => FAST | DATA_4 | WRITE | SIZE_1,
        WRITE_2 => FAST | DATA_4 | WRITE | SIZE_2,
        WRITE_4 => FAST | DATA_6 | WRITE | SIZE_4,
        WRITE_MASKED_1 => FAST | DATA_4 | WRITE_MASKED | SIZE_1,
        WRITE_MASKED_2 => FAST | DATA_6 | WRITE_MASKED | SIZE_2,
        READ_BLOCK => STANDARD | TOLD | READ,
        READ_BLOCK_EX => STANDARD | TOLD | READ | EX,
        WRITE_BLOCK => STANDARD | TOLD | WRITE,
        WRITE_BLOCK_EX => STANDARD | TOLD | WRITE | EX,
        WRITE_MASKED_BLOCK => STANDARD | TOLD | WRITE_MASKED,
        WRITE_MASKED_BLOCK_EX => STANDARD | TOLD | WRITE_MASKED | EX,
        SCOPE_SETUP => STANDARD | TOLD | SET_UP_SCOPE,
        SCOPE_SETUP_EX => STANDARD | TOLD | SET_UP_SCOPE | EX,
        SCOPE_READ => FAST | DATA_0 | READ_SCOPE,
        RECORDER_SETUP => STANDARD | TOLD | PREPARE_AND_START,
        RECORDER_SETUP_EX => STANDARD | TOLD | PREPARE_AND_START | EX,
        RECORDER_START => FAST | DATA_0 | START,
        RECORDER_STOP => FAST | DATA_0 | STOP,
        RECORDER_STATUS => FAST | DATA_0 | STATUS,
        BUFFER_QUERY => FAST | DATA_0 | QUERY_BUFFER,
        BUFFER_QUERY_EX => FAST | DATA_0 | QUERY_BUFFER | EX,
        COMMAND => STANDARD | TOLD | SEND_COMMAND,
        RESULT => FAST | DATA_0 | COMMAND_RESULT,
        TABLE => STANDARD | TOLD | TELL_TABLE,
        STRING_LENGTH => FAST | DATA_2 | MEASURE_STRING,
        STRING_LENGTH_EX => FAST | DATA_4 | MEASURE_STRING | EX,
        NONE_0 => UNSERVED | DATA_0,
        NONE_2 => UNSERVED | DATA_2,
        NONE_4 => UNSERVED | DATA_4,
        NONE_6 => UNSERVED | DATA_6,
        _ => UNSERVED | TOLD,
    }
}
