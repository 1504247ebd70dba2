// The operands of a line, read off one by one. What is not as it has to be is complained of.
ghost use Rattle.std.specs.Prelude.{◌≡◌, ◌≤◌, ◌<◌, length, ◌%◌, MatchResult, IfOk, OnErr, Some, ℕ, IsTrue, IsFalse};
ghost use Rattle.script_words.specs.Words.{is_over};
ghost use Rattle.script_words.specs.Operands.{byte_at, number_at};

use crate::complaint::Complaint;
use crate::lengths::{BYTES, NUMBERS};
use crate::room::{LineBytes, Room};
use script_words::operands::{read_byte, read_bytes, read_number};
use script_words::words::is_over;

#[derive(Clone, Copy)]
pub struct Operands<'a> {
    pub line: &'a [u8],
    // where the next word may begin
    pub next: usize,
}

impl Operands<'_> {
    pub fn number(&mut self) -> Result<u64, Complaint>
        ensures { MatchResult result (λ value. number_at self.old.line.now self.old.next ≡ Some (value, self.new.next)) (λ _. number_at self.old.line.now self.old.next ≡ None) }
    {
        let (value, next) = read_number(self.line, self.next).ok_or(Complaint::Number)?;
        self.next = next;
        Ok(value)
    }

    pub fn byte(&mut self) -> Result<u8, Complaint>
        ensures { MatchResult result (λ value. byte_at self.old.line.now self.old.next ≡ Some (value, self.new.next)) (λ _. byte_at self.old.line.now self.old.next ≡ None) }
    {
        let (value, next) = read_byte(self.line, self.next).ok_or(Complaint::Byte)?;
        self.next = next;
        Ok(value)
    }

    // A station, an address or a size.
    pub fn wide(&mut self) -> Result<u16, Complaint>
        ensures read { IfOk result (λ value. number_at self.old.line.now self.old.next ≡ Some (value, self.new.next)) }
        ensures refused { OnErr result ((value next : ℕ) → number_at self.old.line.now self.old.next ≡ Some (value, next) → 65535 < value) }
    {
        u16::try_from(self.number()?).map_err(|_| Complaint::Wide)
    }

    pub fn room<const MOST: usize>(&mut self, complaint: Complaint) -> Result<Room<MOST>, Complaint>
        ensures read { IfOk result (λ room. number_at self.old.line.now self.old.next ≡ Some (room.size, self.new.next)) }
        ensures within { IfOk result (λ room. room.size ≤ MOST) }
        ensures refused { OnErr result ((value next : ℕ) → number_at self.old.line.now self.old.next ≡ Some (value, next) → MOST < value) }
    {
        Room::new(self.number()?, complaint)
    }

    // Nothing may follow.
    pub fn end(&self) -> Result<(), Complaint>
        ensures { MatchResult result (λ _. IsTrue (is_over self.now.line.now self.now.next)) (λ _. IsFalse (is_over self.now.line.now self.now.next)) }
    {
        if is_over(self.line, self.next) {
            Ok(())
        } else {
            Err(Complaint::Surplus)
        }
    }

    // All that follows, as bytes.
    pub fn bytes<'b>(&self, room: &'b mut [u8; BYTES]) -> Result<LineBytes<'b>, Complaint>
        ensures { IfOk result (λ bytes. length bytes.slice.now ≤ 524288) }
    {
        let count = read_bytes(self.line, self.next, room).ok_or(Complaint::Byte)?;
        Ok(LineBytes {
            slice: &room[..count],
        })
    }

    // All that follows, as the list of tables that the gate takes: address and size of each, in 2 bytes, the lowest first. The
    // numbers are counted and not the pairs, so that each turn reads one.
    pub fn tables<'b>(&mut self, room: &'b mut [u8; BYTES]) -> Result<LineBytes<'b>, Complaint>
        ensures few { IfOk result (λ list. length list.slice.now ≤ 160) }
        ensures pairs { IfOk result (λ list. length list.slice.now % 4 ≡ 0) }
    {
        let mut count = 0;
        for place in 0..NUMBERS {
            if is_over(self.line, self.next) {
                break;
            }
            let [low, high] = self.wide()?.to_le_bytes();
            room[2 * place] = low;
            room[2 * place + 1] = high;
            count = place + 1;
        }
        if !is_over(self.line, self.next) {
            return Err(Complaint::Many);
        }
        if count % 2 != 0 {
            return Err(Complaint::Number);
        }
        Ok(LineBytes {
            slice: &room[..2 * count],
        })
    }
}
