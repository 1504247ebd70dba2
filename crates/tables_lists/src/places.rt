// A table: inside the calibration area, of one or more whole entries, and each of these good.
ghost use Rattle.std.specs.Prelude.{◌≡◌, length};
ghost use Rattle.document.specs.Areas.{memory_end};
ghost use Rattle.document.specs.Tables.{is_place_good, is_table_good};

use crate::entries::{ENTRY_SIZE, are_entries_good};
use memory_ranges::{CALIBRATION_END, VARIABLES_END, within};

fn is_place_good(address: u32, size: usize) -> bool
    ensures { result ≡ is_place_good (record { address = address; size = size }) }
{
    VARIABLES_END <= address as usize
        && within(address, size, CALIBRATION_END)
        && ENTRY_SIZE <= size
        && size % ENTRY_SIZE == 0
}

// Its entries are looked at only where its place is good, so that they lie in memory.
pub(crate) fn is_table_good(memory: &[u8], address: u32, size: usize) -> bool
    requires { length memory.now ≡ memory_end }
    ensures { result ≡ is_table_good memory.now (record { address = address; size = size }) }
{
    is_place_good(address, size) && are_entries_good(memory, address as usize, size / ENTRY_SIZE)
}
