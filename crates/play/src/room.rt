// What an order may name: bytes of its line, so much of a buffer to be lent, and a part of the memory.
ghost use Rattle.std.specs.Prelude.{length, ◌≡◌, ◌+◌, ◌<◌, ◌≤◌, List, ℕ, replicate, MatchResult};
ghost use Rattle.std.specs.Fn.{FnOnceReturnsAtMut};

use crate::complaint::Complaint;
use log_gate::LOG_GATE_MEMORY;

// Every lent buffer is filled so before a call, so that what a call leaves can be seen.
const FILLING: u8 = 0xEE;

// Bytes that a line gives: at most as many as the room has that they are read into.
#[derive(Clone, Copy)]
pub struct LineBytes<'a> {
    pub slice: &'a [u8],
    ghost within: { length slice.now ≤ 524288 },
}

// So much of a buffer of `MOST` bytes.
#[derive(Clone, Copy)]
pub struct Room<const MOST: usize> {
    size: usize,
    ghost within: { size ≤ MOST },
}

impl<const MOST: usize> Room<MOST> {
    // The complaint says what is wrong with more than there is.
    pub fn new(size: u64, complaint: Complaint) -> Result<Self, Complaint>
        ensures { MatchResult result (λ room. room.size ≡ size) (λ e. (e ≡ complaint) × (MOST < size)) }
    {
        if size > MOST as u64 {
            return Err(complaint);
        }
        Ok(Room {
            size: size as usize,
        })
    }

    pub fn lend<T, F: FnOnce(&mut [u8]) -> T>(self, call: F) -> T
        requires small { MOST ≤ 65535 }
        requires callable { F.IsAlwaysCallable call }
        ensures { (left : List ℕ) × FnOnceReturnsAtMut F.FnOnce call (replicate self.entry.size 238) result left }
    {
        let mut lent = [FILLING; MOST];
        call(&mut lent[..self.size])
    }
}

// The bytes of the memory from a place to another.
#[derive(Clone, Copy)]
pub struct Part {
    pub start: usize,
    pub end: usize,
    ghost ordered: { start ≤ end },
    ghost within: { end ≤ 16384 },
}

impl Part {
    // So many bytes from a place on, if the memory has them all.
    pub fn new(start: u64, count: u64) -> Result<Self, Complaint>
        ensures { MatchResult result (λ part. (part.start ≡ start) × (part.end ≡ start + count)) (λ _. 16384 < start + count) }
    {
        let memory = LOG_GATE_MEMORY as u64;
        if start > memory || count > memory - start {
            return Err(Complaint::Range);
        }
        Ok(Part {
            start: start as usize,
            end: (start + count) as usize,
        })
    }
}
