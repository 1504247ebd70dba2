// What an entry of the table says, column by column.
ghost use Rattle.std.specs.Prelude.{◌≡◌, ◌%◌};
ghost use Rattle.codes_rows.specs.Numbering.{operation_numbered};
ghost use Rattle.codes_table.specs.Table.{length_in, service_in};

use codes_rows::columns::{
    COMMAND_RESULT, DESCRIBE, DESCRIBE_BRIEFLY, EX, FAST, LENGTH, MEASURE_STRING,
    PREPARE_AND_START, QUERY_BUFFER, READ, READ_SCOPE, SEND_COMMAND, SET_UP_SCOPE, SIZE, START,
    STATUS, STOP, TELL_TABLE, TOLD, WRITE, WRITE_MASKED,
};
use document::{Operation, Service};

// How many data bytes follow, where the next literal does not tell it.
pub fn length_in(entry: u16) -> Option<u8>
    ensures { result ≡ length_in entry }
{
    let n = entry / LENGTH % 8;
    if n == TOLD / LENGTH {
        return None;
    }
    Some(n as u8)
}

fn operation_in(entry: u16) -> Operation
    ensures { result ≡ operation_numbered (entry % 64) }
{
    match entry % SIZE {
        DESCRIBE => Operation::Describe,
        DESCRIBE_BRIEFLY => Operation::DescribeBriefly,
        READ => Operation::Read,
        WRITE => Operation::Write,
        WRITE_MASKED => Operation::WriteMasked,
        SET_UP_SCOPE => Operation::SetUpScope,
        READ_SCOPE => Operation::ReadScope,
        PREPARE_AND_START => Operation::PrepareAndStart,
        START => Operation::Start,
        STOP => Operation::Stop,
        STATUS => Operation::Status,
        QUERY_BUFFER => Operation::QueryBuffer,
        SEND_COMMAND => Operation::SendCommand,
        COMMAND_RESULT => Operation::CommandResult,
        TELL_TABLE => Operation::TellTable,
        MEASURE_STRING => Operation::MeasureString,
        _ => Operation::Unserved,
    }
}

// The kind alone says whether a command is served.
pub fn service_in(entry: u16) -> Service
    ensures { result ≡ service_in entry }
{
    if entry < FAST {
        return Service {
            operation: Operation::Unserved,
            ex: false,
            size: 0,
        };
    }
    Service {
        operation: operation_in(entry),
        ex: entry / EX % 2 == 1,
        size: (entry / SIZE % 8) as u8,
    }
}
