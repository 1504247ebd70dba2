// A block of bytes at once: refused, or each byte taken as it would be singly, while there is room for an answer.
#![tactic(auto)]

ghost use Rattle.std.specs.Prelude.{◌≡◌, ◌+◌, ◌<◌, ◌≤◌, length};
ghost use Rattle.document.specs.Numbers.{answer_room};
ghost use Rattle.state_parts.specs.Within.{Within};
ghost use Rattle.state_block.specs.Places.{state_length};
ghost use Rattle.state_byte.specs.Turn.{turn};
ghost use Rattle.state_block.specs.Layout.{decoded};
ghost use Rattle.call_byte.specs.Promises.{Turned};
ghost use Rattle.call_block.specs.Going.{TookNext, Gone};
ghost use Rattle.call_block.specs.Promises.{BlockDone};

use call_byte::hear;
use call_checks::byte_refusal;
use call_quiet::pass_over;
use codes_table::{ANSWER_ROOM, TAKEN};
use serve_message::respond;

// The number with which a block is refused, or 0; how many of its bytes were taken, and how many bytes of answers were written.
#[repr(C)]
#[derive(Clone, Copy)]
pub struct BlockTaken {
    pub refusal: u8,
    pub taken: usize,
    pub written: usize,
}

// How far a block has been taken: so many of its bytes, and so many bytes of answers.
#[derive(Clone, Copy)]
struct Going {
    taken: usize,
    written: usize,
}

// A byte that nothing refuses, as crates/call_byte takes it, and with its proof: how many bytes of answers it brings.
fn take(state: &mut [u8], byte: u8, memory: &mut [u8], answer: &mut [u8]) -> usize
    requires { (state_length ≤ length state.old) × Within (decoded state.old) memory.old × (answer_room ≤ length answer.old) }
    ensures { Turned (turn (decoded state.old) byte memory.old answer.old) state.old result state.new memory.new answer.new }
{
    match hear(state, byte) {
        None => 0,
        Some(whole) => respond(whole, state, memory, answer),
    }
}

// The bytes behind those taken so far that only count, or do nothing, and behind them one more, whose answer stands behind those before it.
fn take_next(
    state: &mut [u8],
    bytes: &[u8],
    so_far: Going,
    memory: &mut [u8],
    answers: &mut [u8],
) -> Going
    requires { (state_length ≤ length state.old) × Within (decoded state.old) memory.old × (so_far.taken < length bytes.now) × (so_far.written + answer_room ≤ length answers.old) }
    ensures { TookNext bytes.now so_far.taken so_far.written result state.old memory.old answers.old state.new memory.new answers.new }
{
    let next = pass_over(state, bytes, so_far.taken);
    if next == bytes.len() {
        return Going {
            taken: next,
            written: so_far.written,
        };
    }
    let length = take(state, bytes[next], memory, &mut answers[so_far.written..]);
    Going {
        taken: next + 1,
        written: so_far.written + length,
    }
}

// "It takes bytes while 132 bytes of room are left, and no longer". A turn takes as many bytes as it can, so no iterator counts the turns.
fn take_while_room(state: &mut [u8], bytes: &[u8], memory: &mut [u8], answers: &mut [u8]) -> Going
    requires { (state_length ≤ length state.old) × Within (decoded state.old) memory.old }
    ensures { Gone bytes.now result state.old memory.old answers.old state.new memory.new answers.new }
{
    let mut going = Going {
        taken: 0,
        written: 0,
    };
    while going.taken < bytes.len() && ANSWER_ROOM <= answers.len() - going.written {
        going = take_next(state, bytes, going, memory, answers);
    }
    going
}

pub fn block(state: &mut [u8], bytes: &[u8], memory: &mut [u8], answers: &mut [u8]) -> BlockTaken
    ensures { BlockDone state.old bytes.now memory.old answers.old result state.new memory.new answers.new }
{
    match byte_refusal(state, memory, answers) {
        Ok(()) => {
            let going = take_while_room(state, bytes, memory, answers);
            BlockTaken {
                refusal: TAKEN,
                taken: going.taken,
                written: going.written,
            }
        }
        Err(refusal) => BlockTaken {
            refusal: u8::from(refusal),
            taken: 0,
            written: 0,
        },
    }
}
