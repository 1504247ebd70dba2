// The entries of a table: the type of each lies in memory, and where it is a base type, the size is its own.
ghost use Rattle.std.specs.Prelude.{◌≡◌, ◌+◌, ◌*◌, ◌≤◌, ◌<◌, length};
ghost use Rattle.document.specs.Areas.{memory_end, bytes_at};
ghost use Rattle.document.specs.Tables.{entry_size, base_size, is_entry_good, are_entries_good};

use bytes_fields::Field;
use memory_ranges::MEMORY_END;
use tables_base_types::size_of;

pub(crate) const ENTRY_SIZE: usize = 8;

// Where in an entry its type and its info stand.
const TYPE_PLACE: usize = 2;

const INFO_PLACE: usize = 6;

// The size of the base type whose string stands at an address, or 0: its code, and a zero behind it.
fn base_size(memory: &[u8], address: usize) -> u16
    requires { address < length memory.now }
    ensures { result ≡ base_size memory.now address }
{
    match &memory[address..] {
        [code, 0, ..] => u16::from(size_of(*code)),
        _ => 0,
    }
}

// The entry at an address: its size is its info divided by 4, and that of its base type; another type has any size.
fn is_entry_good(memory: &[u8], at: usize) -> bool
    requires { (length memory.now ≡ memory_end) × (at + entry_size ≤ memory_end) }
    ensures { result ≡ is_entry_good memory.now (bytes_at memory.now at entry_size) }
{
    let type_address = usize::from(u16::at(memory, at + TYPE_PLACE));
    if type_address >= MEMORY_END {
        return false;
    }
    let base = base_size(memory, type_address);
    base == 0 || u16::at(memory, at + INFO_PLACE) / 4 == base
}

// So many entries, one behind the other.
pub(crate) fn are_entries_good(memory: &[u8], address: usize, count: usize) -> bool
    requires { (length memory.now ≡ memory_end) × (address + count * entry_size ≤ memory_end) }
    ensures { result ≡ are_entries_good memory.now address count }
{
    for k in 0..count {
        if !is_entry_good(memory, address + k * ENTRY_SIZE) {
            return false;
        }
    }
    true
}
