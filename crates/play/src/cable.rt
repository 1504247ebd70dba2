// The orders to the other end of the cable: the writers of commands and answers, and the reader of answers.
ghost use Rattle.std.specs.Prelude.{◌≡◌, ◌+◌, ◌%◌, ◌^◌, ℕ, length, OnOk, replicate};
ghost use Rattle.std.proofs.lemmas.List.Edits.{sets};
ghost use Rattle.line_reader.specs.Reader as host;
ghost use Rattle.call_reader.specs.Layout.{reader_length, encoded_reader};
ghost use Rattle.call_reader.specs.Promises.{BeginDone};

use crate::lengths::LENT;
use crate::order::CableOrder;
use crate::room::Room;
use crate::shown::{put_refusal, put_written};
use call_reader::ReadByte;
use log_gate::{
    LOG_GATE_READER, log_gate_reader_begin, log_gate_reader_byte, log_gate_write_answer,
    log_gate_write_command,
};
use script_lines::output::Output;
use std::io::{self, Write};

fn write_command<W: Write>(
    command: u8,
    body: &[u8],
    room: Room<LENT>,
    out: &mut Output<W>,
) -> io::Result<()> {
    room.lend(|lent| {
        let written = log_gate_write_command(command, body, lent);
        put_written(b'W', written.refusal, written.length, lent, out)
    })
}

fn write_answer<W: Write>(
    status: u8,
    body: &[u8],
    room: Room<LENT>,
    out: &mut Output<W>,
) -> io::Result<()> {
    room.lend(|lent| {
        let written = log_gate_write_answer(status, body, lent);
        put_written(b'V', written.refusal, written.length, lent, out)
    })
}

// A refused byte, or a whole right answer with the whole lent buffer.
fn put_read<W: Write>(
    index: u64,
    read: ReadByte,
    lent: &[u8],
    out: &mut Output<W>,
) -> io::Result<()> {
    if read.refusal == 0 && read.whole == 0 {
        return Ok(());
    }
    out.put_text(b"R ")?;
    out.put_decimal(index)?;
    out.put(b' ')?;
    out.put_decimal(u64::from(read.refusal))?;
    if read.whole != 0 {
        out.put(b' ')?;
        out.put_hex(read.status)?;
        out.put(b' ')?;
        out.put_decimal(read.length as u64)?;
        out.put_bytes(lent)?;
    }
    out.put(b'\n')
}

#[derive(Clone, Copy)]
pub struct Reader {
    block: [u8; LOG_GATE_READER],
    // how many bytes it was given
    given: u64,
}

impl Reader {
    // Until a script begins a reading, no data are expected.
    pub fn new() -> Self
        ensures { result.block ≡ sets (replicate reader_length 0) 0 (encoded_reader (host.fresh 0)) }
    {
        let mut block = [0u8; LOG_GATE_READER];
        log_gate_reader_begin(&mut block, 0);
        Reader { block, given: 0 }
    }

    fn begin<W: Write>(&mut self, expected: u64, out: &mut Output<W>) -> io::Result<()>
        ensures begun { (number : ℕ) × BeginDone self.old.block expected number self.new.block }
        ensures kept { self.new.given ≡ self.old.given }
    {
        put_refusal(
            b'E',
            log_gate_reader_begin(&mut self.block, expected as usize),
            out,
        )
    }

    fn read_byte<W: Write>(
        &mut self,
        byte: u8,
        room: Room<LENT>,
        out: &mut Output<W>,
    ) -> io::Result<()>
        ensures { OnOk result (self.new.given ≡ (self.old.given + 1) % 2 ^ 64) }
    {
        room.lend(|lent| {
            let read = log_gate_reader_byte(&mut self.block, byte, lent);
            put_read(self.given, read, lent, out)
        })?;
        self.given = self.given.wrapping_add(1);
        Ok(())
    }

    // The bytes one by one, with every refusal and answer printed as it comes.
    fn read<W: Write>(
        &mut self,
        bytes: &[u8],
        room: Room<LENT>,
        out: &mut Output<W>,
    ) -> io::Result<()>
        ensures { OnOk result (self.new.given ≡ (self.old.given + length bytes.now) % 2 ^ 64) }
    {
        for byte in bytes {
            self.read_byte(*byte, room, out)?;
        }
        Ok(())
    }

    pub fn carry_out<W: Write>(
        &mut self,
        order: CableOrder,
        out: &mut Output<W>,
    ) -> io::Result<()> {
        match order {
            CableOrder::WriteCommand {
                command,
                room,
                body,
            } => write_command(command, body.slice, room, out),
            CableOrder::WriteAnswer { status, room, body } => write_answer(
                status, body.slice, room, out,
            ),
            CableOrder::Expect { data } => self.begin(data, out),
            CableOrder::Read { room, bytes } => self.read(bytes.slice, room, out),
        }
    }
}
