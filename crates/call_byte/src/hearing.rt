// A byte of the line in the block: the receiver takes it.
ghost use Rattle.std.specs.Prelude.{◌≤◌, length};
ghost use Rattle.state_block.specs.Places.{state_length};
ghost use Rattle.call_byte.specs.Heard.{Hears};

use line_receiver::Event;
use serve_message::Whole;
use state_block::{BODY, put_receiver, receiver_in};

// The message that the byte ends, if it ends one. The receiver is stored, and at most one byte of the body.
pub fn hear(state: &mut [u8], byte: u8) -> Option<Whole>
    requires { state_length ≤ length state.old }
    ensures { Hears state.old byte result state.new }
{
    let receiver = receiver_in(state);
    let taken = receiver.step(byte);
    put_receiver(state, taken.next);
    match taken.event {
        Event::Nothing => None,
        Event::Keep { at, byte } => {
            let place = BODY + usize::from(at);
            state[place] = byte;
            None
        }
        Event::Whole {
            command,
            length,
            sum,
        } => Some(Whole {
            command,
            length,
            sum,
        }),
    }
}
