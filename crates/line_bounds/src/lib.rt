// The bounds of a receiver's state: one check, made where a state comes in.
#![tactic(auto)]

ghost use Rattle.std.specs.Prelude.{◌≡◌};
ghost use Rattle.line_receiver.specs.Bounds.{length_right, inside_sound, sound};

use codes_table::{FIRST_FAST, fast_length};
use line_receiver::{DATA_NEXT, IDLE, LENGTH_NEXT, Receiver, SUM_NEXT};
use line_wire::doubling::PLUS;

// Whether a length goes with a command: any below 0xC0, the one that the command gives from there on.
fn length_right(command: u8, length: u8) -> bool
    ensures { result ≡ length_right command length }
{
    command < FIRST_FAST || length == fast_length(command)
}

fn is_sound_inside(receiver: Receiver) -> bool
    ensures { result ≡ inside_sound receiver.phase receiver.command receiver.length receiver.have }
{
    let goes = length_right(receiver.command, receiver.length);
    match receiver.phase {
        DATA_NEXT => goes && receiver.have < receiver.length,
        SUM_NEXT => goes && receiver.have == receiver.length,
        LENGTH_NEXT => receiver.command < FIRST_FAST && receiver.have == 0,
        _ => false,
    }
}

// Whether the state is within its bounds.
#[tactic(auto, unfolding(line_receiver::specs::Bounds::sound))]
pub fn is_sound(receiver: Receiver) -> bool
    ensures { result ≡ sound receiver }
{
    if receiver.waiting > 1 {
        return false;
    }
    receiver.phase == IDLE || (receiver.command != PLUS && is_sound_inside(receiver))
}
