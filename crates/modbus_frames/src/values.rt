// Exception 3: quantity, byte count and frame length.
ghost use Rattle.std.specs.Prelude.{◌≡◌, ◌≤◌, length};
ghost use Rattle.document.specs.Modbus.{is_quantity_wrong, is_value_wrong};
ghost use Rattle.document.specs.declared.Function.TheVariants.{WriteRegisters, ReadRegisters};

use crate::fields::word_in;
use document::Function;

const MOST_READ: u16 = 125;

const MOST_WRITTEN: u16 = 123;

// Station, function, register, one more word, check sum.
const TWO_WORDS: usize = 8;

const THREE_WORDS: usize = 10;

// What a writing of several has beside its registers.
const BESIDE_REGISTERS: usize = 9;

fn is_quantity_wrong(most: u16, frame: &[u8]) -> bool
    requires { 6 ≤ length frame.now }
    ensures { result ≡ is_quantity_wrong most frame.now }
{
    let quantity = word_in(frame, 4);
    quantity < 1 || quantity > most
}

fn is_reading_wrong(frame: &[u8]) -> bool
    ensures { result ≡ is_value_wrong ReadRegisters frame.now }
{
    frame.len() != TWO_WORDS || is_quantity_wrong(MOST_READ, frame)
}

fn is_writing_wrong(frame: &[u8]) -> bool
    ensures { result ≡ is_value_wrong WriteRegisters frame.now }
{
    if frame.len() < BESIDE_REGISTERS {
        return true;
    }
    let count = usize::from(frame[6]);
    if frame.len() != BESIDE_REGISTERS + count {
        return true;
    }
    if is_quantity_wrong(MOST_WRITTEN, frame) {
        return true;
    }
    count != 2 * usize::from(word_in(frame, 4))
}

pub fn is_value_wrong(function: Function, frame: &[u8]) -> bool
    ensures { result ≡ is_value_wrong function frame.now }
{
    match function {
        Function::ReadRegisters => is_reading_wrong(frame),
        Function::WriteRegister => frame.len() != TWO_WORDS,
        Function::WriteRegisters => is_writing_wrong(frame),
        Function::MaskRegister => frame.len() != THREE_WORDS,
        Function::Other => false,
    }
}
