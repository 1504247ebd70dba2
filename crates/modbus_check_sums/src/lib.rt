// The check sum of the second port's frames, a byte at a time by a table.
#![tactic(auto)]

mod table;

ghost use Rattle.std.specs.Prelude.{◌≡◌, ◌%◌, ◌<◌};
ghost use Rattle.std.specs.Int.Bits.{bit_xor};
ghost use Rattle.document.specs.CheckSum.{check_sum};

use table::SHIFTED;

// Which entry of the table a byte asks for.
fn low_byte(register: u16, byte: u8) -> usize
    ensures { (result ≡ bit_xor register byte % 256) × (result < 256) }
{
    usize::from((register ^ u16::from(byte)) % 256)
}

pub fn check_sum(bytes: &[u8]) -> u16
    ensures { result ≡ check_sum bytes.now }
{
    let mut register: u16 = 0xFFFF;
    for byte in bytes {
        register = (register >> 8) ^ SHIFTED[low_byte(register, *byte)];
    }
    register
}
