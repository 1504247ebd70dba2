// Bytes go into a lent buffer doubled where the line asks it, and into the sum as they are.
// Who tells an answer or writes a command calls these once the buffer is measured.
ghost use Rattle.std.specs.Prelude.{◌≡◌, [], ◌∷◌, ◌+◌, ◌<◌, ◌≤◌, length};
ghost use Rattle.document.specs.Doubling.{stuffed};
ghost use Rattle.document.specs.Sum.{sum_byte_of};
ghost use Rattle.document.specs.Values.{little_endian};
ghost use Rattle.line_wire.specs.Put.{progressed, Put, Ended};

use crate::sum;

pub const PLUS: u8 = 0x2B;

// How far a writer is: where the next byte goes, and the sum of the bytes so far.
#[derive(Clone, Copy)]
pub struct Progress {
    pub at: usize,
    pub sum: u8,
}

impl Progress {
    // Where a writer is once it has put this byte, and the sum then.
    pub fn behind(self, byte: u8) -> Progress
        requires { self.at < 0x8000000000000000 }
        ensures { result ≡ progressed self (byte ∷ []) }
    {
        let places = if byte == PLUS { 2 } else { 1 };
        Progress {
            at: self.at + places,
            sum: sum::added(self.sum, byte),
        }
    }
}

pub fn put(progress: Progress, byte: u8, out: &mut [u8]) -> Progress
    requires { progress.at + length (stuffed (byte ∷ [])) ≤ length out.old }
    ensures { Put progress (byte ∷ []) out.old result out.new }
{
    let at = progress.at;
    out[at] = byte;
    if byte == PLUS {
        out[at + 1] = PLUS;
    }
    progress.behind(byte)
}

// Two bytes, low byte first.
pub fn put_word(from: Progress, word: u16, out: &mut [u8]) -> Progress
    requires { from.at + 4 ≤ length out.old }
    ensures { Put from (little_endian 2 word) out.old result out.new }
{
    let low = put(from, (word % 256) as u8, out);
    put(low, (word / 256 % 256) as u8, out)
}

pub fn put_all(from: Progress, bytes: &[u8], out: &mut [u8]) -> Progress
    requires { from.at + length (stuffed bytes.now) ≤ length out.old }
    ensures { Put from bytes.now out.old result out.new }
{
    let mut progress = from;
    for byte in bytes {
        progress = put(progress, *byte, out);
    }
    progress
}

// The sum byte ends a message or an answer: how long it is on the wire.
pub fn put_sum(progress: Progress, out: &mut [u8]) -> usize
    requires { progress.at + length (stuffed (sum_byte_of (progress.sum ∷ []) ∷ [])) ≤ length out.old }
    ensures { Ended progress out.old result out.new }
{
    let byte = sum::sum_byte(progress.sum);
    let end = put(progress, byte, out);
    end.at
}
