// The masked store of a word, little-endian like every number of the port.
ghost use Rattle.std.specs.Prelude.{◌≡◌, ◌+◌, ◌≤◌, length};
ghost use Rattle.document.specs.Stores.{mask_stored};
ghost use Rattle.document.specs.Values.{little_endian};

use crate::bits::Bits;
use bytes_fields::Field;

pub fn store_masked_word(memory: &mut [u8], at: usize, value: u16, mask: u16)
    requires { at + 2 ≤ length memory.old }
    ensures { memory.new ≡ mask_stored memory.old at (little_endian 2 value) (little_endian 2 mask) }
{
    let old = u16::at(memory, at);
    old.mixed(value, mask).put(memory, at);
}
