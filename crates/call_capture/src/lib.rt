// A capture of the line is listed into a lent list, or refused with nothing written.
#![tactic(auto)]

ghost use Rattle.std.specs.Prelude.{◌≡◌, leb, length};
ghost use Rattle.document_captures.specs.Captures.{captured};
ghost use Rattle.call_capture.specs.Promises.{CaptureDone};

use codes_table::{Refusal, TAKEN};
use line_captures::entries::ENTRY;
use line_captures::walk;

// With which number it refused, or how many entries there are.
#[repr(C)]
#[derive(Clone, Copy)]
pub struct Listed {
    pub refusal: u8,
    pub count: usize,
}

// A start, a command and a sum byte: no message is shorter.
const SHORTEST: usize = 3;

// A list without room takes none, so this only counts.
fn found(bytes: &[u8]) -> usize
    ensures { result ≡ length (captured bytes.now) }
{
    let mut none = [0u64; 1];
    walk::walk(bytes, &mut none)
}

// The bytes are counted only where they may hold more messages than there is room for.
fn is_room(bytes: &[u8], room: usize) -> bool
    ensures { result ≡ leb (length (captured bytes.now)) room }
{
    room >= bytes.len() / SHORTEST || found(bytes) <= room
}

// The one refusal becomes its number here, at the C interface: a Result inside would be taken apart at once.
pub fn capture(bytes: &[u8], list: &mut [u64]) -> Listed
    ensures { CaptureDone bytes.now list.old result list.new }
{
    if !is_room(bytes, list.len() / ENTRY) {
        return Listed {
            refusal: Refusal::Room as u8,
            count: 0,
        };
    }
    Listed {
        refusal: TAKEN,
        count: walk::walk(bytes, list),
    }
}
