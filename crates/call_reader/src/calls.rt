// The two calls: a reading begins, and a byte of the line. Neither asks anything of its caller.
ghost use Rattle.std.specs.Prelude.{◌≡◌, true, ◌≤◌, length};
ghost use Rattle.document.specs.Numbers.{most_data};
ghost use Rattle.line_reader.specs.Reader.{sound, stepped};
ghost use Rattle.codes_table.specs.Calls.{taken_number};
ghost use Rattle.call_reader.specs.Layout.{reader_length, decoded_reader};
ghost use Rattle.call_reader.specs.Promises.{read_number, without, BeginDone, ByteRead, ReadDone};
ghost use Rattle.call_reader.specs.Outcome.{read_byte_of};

use crate::head::{begin_reader, head_in, put_reader_head};
use crate::places::{BODY, READER_LENGTH};
use codes_table::{MOST_DATA, Refusal, TAKEN, taken_number};
use line_reader::Asked;
use memory_ranges::copy_in;

// What a byte brought: with `whole` 1, an answer's status and how many data stand in the lent buffer.
#[repr(C)]
#[derive(Clone, Copy)]
pub struct ReadByte {
    pub refusal: u8,
    pub whole: u8,
    pub status: u8,
    pub length: u8,
}

// A whole right answer: its status, and how many data stand in the lent buffer.
#[derive(Clone, Copy)]
pub struct Answer {
    pub status: u8,
    pub length: u8,
}

fn without_answer(refusal: u8) -> ReadByte
    ensures { result ≡ without refusal }
{
    ReadByte {
        refusal,
        whole: 0,
        status: 0,
        length: 0,
    }
}

// At the C interface a refusal is a number, and whether there is an answer a flag.
impl From<Result<Option<Answer>, Refusal>> for ReadByte {
    ghost from_gives = { λ outcome read. read ≡ read_byte_of outcome };

    fn from(outcome: Result<Option<Answer>, Refusal>) -> ReadByte {
        match outcome {
            Ok(Some(answer)) => ReadByte {
                refusal: TAKEN,
                whole: 1,
                status: answer.status,
                length: answer.length,
            },
            Ok(None) => without_answer(TAKEN),
            Err(refusal) => without_answer(u8::from(refusal)),
        }
    }
}

fn begun(reader: &mut [u8], expected: usize) -> Result<(), Refusal>
    ensures { BeginDone reader.old expected (taken_number result) reader.new }
{
    if reader.len() < READER_LENGTH {
        return Err(Refusal::State);
    }
    if expected > MOST_DATA {
        return Err(Refusal::Expected);
    }
    begin_reader(reader, expected as u8);
    Ok(())
}

pub fn begin(reader: &mut [u8], expected: usize) -> u8
    ensures { BeginDone reader.old expected result reader.new }
{
    taken_number(begun(reader, expected))
}

// Lowest number first.
fn read_refusal(reader: &[u8], out: &[u8]) -> Result<(), Refusal>
    ensures { taken_number result ≡ read_number reader.now out.now }
{
    if reader.len() < READER_LENGTH {
        return Err(Refusal::State);
    }
    let head = head_in(reader);
    if !head.is_sound() {
        return Err(Refusal::State);
    }
    if out.len() < MOST_DATA {
        return Err(Refusal::Room);
    }
    Ok(())
}

// A byte that nothing refuses, though the answer that it ends may have a wrong sum. One that finishes no answer writes the head and at
// most one byte of the data.
fn read_on(reader: &mut [u8], byte: u8, out: &mut [u8]) -> Result<Option<Answer>, Refusal>
    requires { (reader_length ≤ length reader.old) × (sound (decoded_reader reader.old) ≡ true) × (most_data ≤ length out.old) }
    ensures { ByteRead (stepped (decoded_reader reader.old) byte) reader.old out.old (read_byte_of result) reader.new out.new }
{
    let head = head_in(reader);
    let stepped = head.step(byte);
    let next = stepped.next;
    put_reader_head(reader, next);
    let asks = stepped.asks;
    match asks {
        Asked::Nothing => Ok(None),
        Asked::Keep { at, byte } => {
            reader[BODY + usize::from(at)] = byte;
            Ok(None)
        }
        Asked::Right { status, length } => {
            let end = BODY + usize::from(length);
            copy_in(out, 0, &reader[BODY..end]);
            Ok(Some(Answer { status, length }))
        }
        Asked::Wrong => Err(Refusal::Sum),
    }
}

fn heard(reader: &mut [u8], byte: u8, out: &mut [u8]) -> Result<Option<Answer>, Refusal>
    ensures { ReadDone reader.old byte out.old (read_byte_of result) reader.new out.new }
{
    read_refusal(reader, out)?;
    read_on(reader, byte, out)
}

pub fn read(reader: &mut [u8], byte: u8, out: &mut [u8]) -> ReadByte
    ensures { ReadDone reader.old byte out.old result reader.new out.new }
{
    ReadByte::from(heard(reader, byte, out))
}
