// The fields of a frame.
ghost use Rattle.std.specs.Prelude.{◌≡◌, ◌+◌, ◌<◌, ◌≤◌, length};
ghost use Rattle.document.specs.Frames.{word_in};
ghost use Rattle.document.specs.Modbus.{function_of};

use document::Function;

const READ_REGISTERS: u8 = 3;

const WRITE_REGISTER: u8 = 6;

const WRITE_REGISTERS: u8 = 16;

const MASK_REGISTER: u8 = 22;

// No From, since the type is the document's.
pub fn function_of(byte: u8) -> Function
    ensures { result ≡ function_of byte }
{
    match byte {
        READ_REGISTERS => Function::ReadRegisters,
        WRITE_REGISTER => Function::WriteRegister,
        WRITE_REGISTERS => Function::WriteRegisters,
        MASK_REGISTER => Function::MaskRegister,
        _ => Function::Other,
    }
}

// A number of two bytes, high byte first; who asks has seen that the frame is long enough.
pub fn word_in(frame: &[u8], place: usize) -> u16
    requires { place + 2 ≤ length frame.now }
    ensures { (result ≡ word_in frame.now place) × (result < 65536) }
{
    u16::from_be_bytes([frame[place], frame[place + 1]])
}
