// A byte of the line over a block: refused, or taken by the receiver, kept, or answered.
#![tactic(auto)]

mod hearing;

ghost use Rattle.std.specs.Prelude.{◌≤◌, length};
ghost use Rattle.document.specs.Numbers.{answer_room};
ghost use Rattle.state_parts.specs.Within.{Within};
ghost use Rattle.state_byte.specs.Turn.{turn};
ghost use Rattle.state_block.specs.Places.{state_length};
ghost use Rattle.state_block.specs.Layout.{decoded};
ghost use Rattle.call_byte.specs.Promises.{Turned, ByteTaken};

use call_checks::byte_refusal;
use codes_table::TAKEN;
pub use hearing::hear;
use serve_message::respond;

// The number with which a byte is refused, or 0, and how many bytes of the lent buffer are its answer.
#[repr(C)]
#[derive(Clone, Copy)]
pub struct Taken {
    pub refusal: u8,
    pub length: usize,
}

// A byte that nothing refuses: how many bytes of the lent buffer are its answer. A block has a function of its own for the same: one for
// both would be called, and take a byte some twenty to thirty instructions more.
fn take(state: &mut [u8], byte: u8, memory: &mut [u8], answer: &mut [u8]) -> usize
    requires { (state_length ≤ length state.old) × Within (decoded state.old) memory.old × (answer_room ≤ length answer.old) }
    ensures { Turned (turn (decoded state.old) byte memory.old answer.old) state.old result state.new memory.new answer.new }
{
    match hear(state, byte) {
        None => 0,
        Some(whole) => respond(whole, state, memory, answer),
    }
}

pub fn byte(state: &mut [u8], byte: u8, memory: &mut [u8], answer: &mut [u8]) -> Taken
    ensures { ByteTaken state.old byte memory.old answer.old result state.new memory.new answer.new }
{
    match byte_refusal(state, memory, answer) {
        Ok(()) => Taken {
            refusal: TAKEN,
            length: take(state, byte, memory, answer),
        },
        Err(refusal) => Taken {
            refusal: u8::from(refusal),
            length: 0,
        },
    }
}
