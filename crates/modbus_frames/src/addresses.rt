// Exception 2: whether the registers may be read or written. Registers are doubled to bytes at a width where nothing comes round.
ghost use Rattle.std.specs.Prelude.{◌≡◌, List, ℕ, ◌≤◌, length};
ghost use Rattle.document.specs.Modbus.{is_address_wrong};

use crate::fields::word_in;
use document::Function;
use memory_ranges::{may_be_read, may_be_written};

const REGISTER: usize = 2;

pub fn is_address_wrong(function: Function, frame: &[u8]) -> bool
    requires { 8 ≤ length frame.now }
    ensures { (memory : List ℕ) → result ≡ is_address_wrong function frame.now memory }
{
    let address = 2 * u32::from(word_in(frame, 2));
    let size = 2 * usize::from(word_in(frame, 4));
    match function {
        Function::ReadRegisters => !may_be_read(address, size),
        Function::WriteRegister | Function::MaskRegister => !may_be_written(address, REGISTER),
        Function::WriteRegisters => !may_be_written(address, size),
        Function::Other => false,
    }
}
