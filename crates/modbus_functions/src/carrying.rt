// What a function does to the memory.
ghost use Rattle.std.specs.Prelude.{◌≡◌, length};
ghost use Rattle.document.specs.Areas.{memory_end};
ghost use Rattle.document.specs.Numbers.{done};
ghost use Rattle.document.specs.Modbus.{exception_to, carried_out};

use document::Function;
use memory_masks::store_masked_word;
use modbus_frames::word_in;
use modbus_registers::copy_swapped;

// Where the values of a write begin, and how many bytes stand behind them.
const VALUE: usize = 4;

const VALUE_END: usize = 6;

const VALUES: usize = 7;

const CHECK_SUM: usize = 2;

// The port's masked store takes the value's bit where its mask has one: where the and-mask has none.
pub fn carry_out(function: Function, frame: &[u8], memory: &mut [u8])
    requires { (exception_to function frame.now memory.old ≡ done) × (length memory.old ≡ memory_end) }
    ensures { memory.new ≡ carried_out function frame.now memory.old }
{
    let at = 2 * usize::from(word_in(frame, 2));
    match function {
        Function::WriteRegister => copy_swapped(memory, at, &frame[VALUE..VALUE_END]),
        Function::WriteRegisters => {
            let end = frame.len() - CHECK_SUM;
            copy_swapped(memory, at, &frame[VALUES..end]);
        }
        Function::MaskRegister => {
            let kept = word_in(frame, 4);
            let set = word_in(frame, 6);
            store_masked_word(memory, at, set, !kept);
        }
        Function::ReadRegisters | Function::Other => {}
    }
}
