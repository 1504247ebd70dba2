// What a function answers, and an exception: the bytes before the check sum.
ghost use Rattle.std.specs.Prelude.{◌≡◌, [], ◌∷◌, ◌+◌, ◌*◌, ◌<◌, ◌≤◌, length, take};
ghost use Rattle.document.specs.Areas.{memory_end};
ghost use Rattle.document.specs.Numbers.{done};
ghost use Rattle.document.specs.Frames.{station_in, function_byte, first_in, quantity_in};
ghost use Rattle.document.specs.Modbus.{exception_to, modbus_room};
ghost use Rattle.document.specs.declared.Function.TheVariants.{ReadRegisters};
ghost use Rattle.modbus_frames.specs.Exceptions.{exception_number};
ghost use Rattle.modbus_functions.specs.Put.{answer_to, Put};

use document::Function;
use memory_ranges::copy_in;
use modbus_frames::{Exception, word_in};
use modbus_registers::copy_swapped;

const TOP_BIT: u8 = 128;

// Station and function.
const HEAD: usize = 2;

// The head, the first register and one more word.
const TWO_FIELDS: usize = 6;

const THREE_FIELDS: usize = 8;

// The head and the count of bytes.
const COUNTED: usize = 3;

pub fn tell_exception(exception: Exception, frame: &[u8], out: &mut [u8]) -> usize
    requires { (2 ≤ length frame.now) × (function_byte frame.now < 128) × (modbus_room ≤ length out.old) }
    ensures { Put (station_in frame.now ∷ (128 + function_byte frame.now) ∷ exception_number exception ∷ []) out.old result out.new }
{
    out[0] = frame[0];
    out[1] = TOP_BIT + frame[1];
    out[2] = u8::from(exception);
    3
}

fn tell_registers(frame: &[u8], memory: &[u8], out: &mut [u8]) -> usize
    requires in_bounds { (6 ≤ length frame.now) × (quantity_in frame.now ≤ 125) × (modbus_room ≤ length out.old) }
    requires frame_in_bounds { 2 * first_in frame.now + 2 * quantity_in frame.now ≤ length memory.now }
    ensures { Put (answer_to ReadRegisters frame.now memory.now) out.old result out.new }
{
    let from = 2 * usize::from(word_in(frame, 2));
    let count = 2 * usize::from(word_in(frame, 4));
    let to = from + count;
    out[0] = frame[0];
    out[1] = frame[1];
    out[2] = count as u8;
    copy_swapped(out, COUNTED, &memory[from..to]);
    COUNTED + count
}

// The front of the frame again.
fn tell_front(front: usize, frame: &[u8], out: &mut [u8]) -> usize
    requires { (front ≤ length frame.now) × (front ≤ length out.old) }
    ensures { Put (take front frame.now) out.old result out.new }
{
    copy_in(out, 0, &frame[..front]);
    front
}

pub fn tell(function: Function, frame: &[u8], memory: &[u8], out: &mut [u8]) -> usize
    requires { (exception_to function frame.now memory.now ≡ done) × (length memory.now ≡ memory_end) × (modbus_room ≤ length out.old) }
    ensures { Put (answer_to function frame.now memory.now) out.old result out.new }
{
    match function {
        Function::ReadRegisters => tell_registers(frame, memory, out),
        Function::WriteRegister | Function::WriteRegisters => tell_front(TWO_FIELDS, frame, out),
        Function::MaskRegister => tell_front(THREE_FIELDS, frame, out),
        Function::Other => tell_front(HEAD, frame, out),
    }
}
