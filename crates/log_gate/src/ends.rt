// Both ends of the line: the two writers, and the answer reader.
ghost use Rattle.line_wire.specs.AnswerWritten.{AnswerWritten};
ghost use Rattle.line_commands.specs.CommandWritten.{CommandWritten};
ghost use Rattle.call_reader.specs.Promises.{BeginDone, ReadDone};

use call_reader::ReadByte;
use line_wire::Written;

pub fn log_gate_write_answer(status: u8, body: &[u8], out: &mut [u8]) -> Written
    ensures { AnswerWritten (record { status = status; body = body.now }) out.old result out.new }
{
    line_answers::write_answer(status, body, out)
}

pub fn log_gate_write_command(command: u8, body: &[u8], out: &mut [u8]) -> Written
    ensures { CommandWritten command body.now out.old result out.new }
{
    line_commands::write_command(command, body, out)
}

pub fn log_gate_reader_begin(reader: &mut [u8], expected: usize) -> u8
    ensures { BeginDone reader.old expected result reader.new }
{
    call_reader::begin(reader, expected)
}

pub fn log_gate_reader_byte(reader: &mut [u8], byte: u8, out: &mut [u8]) -> ReadByte
    ensures { ReadDone reader.old byte out.old result reader.new out.new }
{
    call_reader::read(reader, byte, out)
}
