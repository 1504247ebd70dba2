// The exceptions, in their order: 1, then 3, then 2.
ghost use Rattle.std.specs.Prelude.{◌≡◌, List, ℕ};
ghost use Rattle.document.specs.Modbus.{is_other, exception_to};
ghost use Rattle.modbus_frames.specs.Exceptions.{exception_number, accepted_number};

use crate::addresses::is_address_wrong;
use crate::values::is_value_wrong;
use document::Function;

// Why a frame is not served.
#[derive(Clone, Copy)]
pub enum Exception {
    FunctionNotServed = 1,
    AddressWrong = 2,
    ValueWrong = 3,
}

impl From<Exception> for u8 {
    ghost from_gives = { λ exception byte. byte ≡ exception_number exception };

    fn from(exception: Exception) -> u8 {
        exception as u8
    }
}

fn is_other(function: Function) -> bool
    ensures { result ≡ is_other function }
{
    matches!(function, Function::Other)
}

#[tactic(auto, unfolding(document::specs::Modbus::exception_to))]
pub fn exception_to(function: Function, frame: &[u8]) -> Result<(), Exception>
    ensures { (memory : List ℕ) → accepted_number result ≡ exception_to function frame.now memory }
{
    if is_other(function) {
        return Err(Exception::FunctionNotServed);
    }
    if is_value_wrong(function, frame) {
        return Err(Exception::ValueWrong);
    }
    if is_address_wrong(function, frame) {
        return Err(Exception::AddressWrong);
    }
    Ok(())
}
