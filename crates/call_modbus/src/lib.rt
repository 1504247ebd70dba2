// The second port: a whole frame, and the answer to it.
#![tactic(auto)]

mod sealing;

ghost use Rattle.std.specs.Prelude.{◌≡◌, ◌<◌, ◌≤◌, length};
ghost use Rattle.document.specs.Areas.{memory_end};
ghost use Rattle.document.specs.Frames.{function_byte};
ghost use Rattle.document.specs.Modbus.{modbus_room, modbus_refusal};
ghost use Rattle.codes_table.specs.Calls.{taken_number};
ghost use Rattle.line_wire.specs.Outcome.{written_of};
ghost use Rattle.call_modbus.specs.Responded.{Responded};
ghost use Rattle.call_modbus.specs.Promises.{ModbusDone};

use codes_table::Refusal;
use line_wire::Written;
use memory_ranges::MEMORY_END;
use modbus_frames::{exception_to, function_of, is_silenced};
use modbus_functions::{carry_out, tell, tell_exception};
use sealing::seal;

pub const ROOM: usize = 256;

const LAST_STATION: u16 = 247;

fn refusal_of(station: u16, memory: &[u8], out: &[u8]) -> Result<(), Refusal>
    ensures { taken_number result ≡ modbus_refusal station memory.now out.now }
{
    if memory.len() != MEMORY_END {
        return Err(Refusal::Memory);
    }
    if out.len() < ROOM {
        return Err(Refusal::Room);
    }
    if station < 1 || station > LAST_STATION {
        return Err(Refusal::Station);
    }
    Ok(())
}

// The answer but for its check sum. It is told before the memory changes, as the memory was looked at.
fn respond(frame: &[u8], memory: &mut [u8], out: &mut [u8]) -> usize
    requires { (4 ≤ length frame.now) × (function_byte frame.now < 128) × (length memory.old ≡ memory_end) × (modbus_room ≤ length out.old) }
    ensures { Responded frame.now memory.old out.old result memory.new out.new }
{
    let function = function_of(frame[1]);
    match exception_to(function, frame) {
        Err(exception) => tell_exception(exception, frame, out),
        Ok(()) => {
            let length = tell(function, frame, memory, out);
            carry_out(function, frame, memory);
            length
        }
    }
}

fn answered(station: u16, frame: &[u8], memory: &mut [u8], out: &mut [u8]) -> Result<usize, Refusal>
    ensures { ModbusDone station frame.now memory.old out.old (written_of result) memory.new out.new }
{
    refusal_of(station, memory, out)?;
    if is_silenced(station as u8, frame) {
        return Ok(0);
    }
    let told = respond(frame, memory, out);
    Ok(seal(told, out))
}

pub fn answer(station: u16, frame: &[u8], memory: &mut [u8], out: &mut [u8]) -> Written
    ensures { ModbusDone station frame.now memory.old out.old result memory.new out.new }
{
    Written::from(answered(station, frame, memory, out))
}
