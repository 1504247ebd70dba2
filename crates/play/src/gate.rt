// The orders to the gate: bytes over the wire, ticks, frames at the second port, what its own program and its panel do, and a look at its memory.
ghost use Rattle.std.specs.Prelude.{◌≡◌, ◌+◌, ◌%◌, ◌^◌, List, ℕ, replicate, length, OnOk, true, false};
ghost use Rattle.std.proofs.lemmas.List.Edits.{sets};
ghost use Rattle.document.specs.Areas.{memory_end};
ghost use Rattle.document.specs.Numbers.{answer_room};
ghost use Rattle.state_parts.specs.Bounds.{fresh};
ghost use Rattle.state_block.specs.Places.{state_length};
ghost use Rattle.state_block.specs.Layout.{encoded};
ghost use Rattle.call_byte.specs.declared.Taken.{Taken};
ghost use Rattle.call_byte.specs.Promises.{ByteTaken};

use crate::lengths::BLOCK_LENT;
use crate::order::GateOrder;
use crate::room::{Part, Room};
use crate::shown::put_block_taken;
use log_gate::{
    LOG_GATE_ANSWER_ROOM, LOG_GATE_MEMORY, LOG_GATE_STATE, log_gate_block, log_gate_byte,
    log_gate_reset, log_gate_tick,
};
use script_adler::adler32;
use script_lines::output::Output;
use std::io::{self, Write};

#[derive(Clone, Copy)]
pub struct Gate {
    pub state: [u8; LOG_GATE_STATE],
    pub memory: [u8; LOG_GATE_MEMORY],
    // how many bytes it was given
    given: u64,
    // whether an order concerned it, so that its memory's digest is to be printed
    concerned: bool,
}

fn put_answer<W: Write>(
    index: u64,
    answer: &[u8],
    length: usize,
    out: &mut Output<W>,
) -> io::Result<()> {
    if length == 0 || length > answer.len() {
        return Ok(());
    }
    out.put_text(b"A ")?;
    out.put_decimal(index)?;
    out.put_bytes(&answer[..length])?;
    out.put(b'\n')
}

impl Gate {
    pub fn new() -> Self
        ensures state { result.state ≡ sets (replicate state_length 0) 0 (encoded fresh) }
        ensures memory { result.memory ≡ replicate memory_end 0 }
        ensures unconcerned { result.concerned ≡ false }
    {
        let mut state = [0u8; LOG_GATE_STATE];
        log_gate_reset(&mut state);
        Gate {
            state,
            memory: [0; LOG_GATE_MEMORY],
            given: 0,
            concerned: false,
        }
    }

    // No byte and no tick is refused: the state has been through the calls alone since reset, and every block has its length.
    fn give_byte<W: Write>(&mut self, byte: u8, out: &mut Output<W>) -> io::Result<()>
        ensures taken { (taken : Taken) × (told : List ℕ) × ByteTaken self.old.state byte self.old.memory (replicate answer_room 0) taken self.new.state self.new.memory told }
        ensures counted { OnOk result (self.new.given ≡ (self.old.given + 1) % 2 ^ 64) }
        ensures concerned { self.new.concerned ≡ self.old.concerned }
    {
        let mut answer = [0u8; LOG_GATE_ANSWER_ROOM];
        let taken = log_gate_byte(&mut self.state, byte, &mut self.memory, &mut answer);
        // Counted first, so that what printing answers goes on as it is: where each byte made a result of its own, a long line took a fifth more.
        let index = self.given;
        self.given = self.given.wrapping_add(1);
        put_answer(index, &answer, taken.length, out)
    }

    // The bytes one by one, with every answer printed as it comes.
    fn give<W: Write>(&mut self, bytes: &[u8], out: &mut Output<W>) -> io::Result<()>
        ensures counted { OnOk result (self.new.given ≡ (self.old.given + length bytes.now) % 2 ^ 64) }
        ensures concerned { self.new.concerned ≡ self.old.concerned }
    {
        for byte in bytes {
            self.give_byte(*byte, out)?;
        }
        Ok(())
    }

    // A block at once: what is not taken of it is not given again.
    fn give_block<W: Write>(
        &mut self,
        block: &[u8],
        room: Room<BLOCK_LENT>,
        out: &mut Output<W>,
    ) -> io::Result<()>
        ensures { self.new.concerned ≡ self.old.concerned }
    {
        self.given = self.given.wrapping_add(block.len() as u64);
        room.lend(|lent| {
            let taken = log_gate_block(&mut self.state, block, &mut self.memory, lent);
            put_block_taken(b'K', taken, lent, out)
        })
    }

    fn tick(&mut self, times: u64)
        ensures { (self.new.given ≡ self.old.given) × (self.new.concerned ≡ self.old.concerned) }
    {
        for _ in 0..times {
            log_gate_tick(&mut self.state, &mut self.memory);
        }
    }

    // What the gate's own program writes.
    fn poke(&mut self, part: Part, bytes: &[u8])
        ensures { (self.new.state ≡ self.old.state) × (self.new.given ≡ self.old.given) × (self.new.concerned ≡ self.old.concerned) }
    {
        for (place, byte) in self.memory[part.start..part.end].iter_mut().zip(bytes) {
            *place = *byte;
        }
    }

    fn put_part<W: Write>(&self, part: Part, out: &mut Output<W>) -> io::Result<()> {
        out.put_text(b"M ")?;
        out.put_decimal(part.start as u64)?;
        out.put_bytes(&self.memory[part.start..part.end])?;
        out.put(b'\n')
    }

    pub fn carry_out<W: Write>(&mut self, order: GateOrder, out: &mut Output<W>) -> io::Result<()>
        ensures { self.new.concerned ≡ true }
    {
        self.concerned = true;
        match order {
            GateOrder::Give { bytes } => self.give(bytes.slice, out)?,
            GateOrder::GiveBlock { room, block } => self.give_block(block.slice, room, out)?,
            GateOrder::Tick { times } => self.tick(times),
            GateOrder::Poke { part, bytes } => self.poke(part, bytes.slice),
            GateOrder::Look { part } => self.put_part(part, out)?,
            GateOrder::Collect { room } => self.collect(room, out)?,
            GateOrder::Report { res } => self.report(res, out)?,
            GateOrder::Register { list } => self.register(list.slice, out)?,
            GateOrder::Prepare { setup } => self.prepare(setup.slice, out)?,
            GateOrder::Start => self.start(out)?,
            GateOrder::Frame {
                station,
                room,
                frame,
            } => self.frame(station, room, frame.slice, out)?,
        }
        Ok(())
    }

    // The digest of the whole memory ends the output of a script that has a gate.
    pub fn put_digest<W: Write>(&self, out: &mut Output<W>) -> io::Result<()> {
        if !self.concerned {
            return Ok(());
        }
        out.put_text(b"D adler32 ")?;
        out.put_word(adler32(&self.memory))?;
        out.put(b'\n')
    }
}
