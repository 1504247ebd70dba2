// What a whole message does: refused for its sum or its length, or carried out.
#![tactic(auto)]

ghost use Rattle.serve_message.specs.Responds.{Lent, Responds};

use codes_table::{MOST_DATA, Status, service_of};
use serve_answers::status_alone;
use serve_operations::serve;
use state_block::BODY;

// What the receiver tells of a whole message; its data stand in the block's body.
#[derive(Clone, Copy)]
pub struct Whole {
    pub command: u8,
    pub length: u8,
    pub sum: u8,
}

pub fn respond(whole: Whole, state: &mut [u8], memory: &mut [u8], out: &mut [u8]) -> usize
    requires { Lent whole state.old memory.old out.old }
    ensures { Responds whole state.old memory.old out.old result out.new state.new memory.new }
{
    if whole.sum != 0 {
        return status_alone(u8::from(Status::SumWrong), out);
    }
    let end = usize::from(whole.length);
    if end > MOST_DATA {
        return status_alone(u8::from(Status::MessageTooLong), out);
    }
    serve(service_of(whole.command), state, BODY + end, memory, out)
}
