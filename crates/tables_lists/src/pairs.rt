// The list: an address and a size for each table, 2 bytes each.
ghost use Rattle.std.specs.Prelude.{◌≡◌, length};
ghost use Rattle.document.specs.Areas.{memory_end};
ghost use Rattle.document.specs.Tables.{tables_in, are_tables_good, is_list_good};

use crate::places::is_table_good;
use bytes_fields::Field;
use tables_state::{LIST_LENGTH, PAIR};

// Each whole pair.
fn are_tables_good(memory: &[u8], list: &[u8]) -> bool
    requires { length memory.now ≡ memory_end }
    ensures { result ≡ are_tables_good memory.now (tables_in list.now) }
{
    for pair in list.chunks_exact(PAIR) {
        let address = u32::from(u16::at(pair, 0));
        let size = usize::from(u16::at(pair, 2));
        if !is_table_good(memory, address, size) {
            return false;
        }
    }
    true
}

// A list of any length; it is not good with more than 16 tables, nor with half a pair.
#[tactic(auto, unfolding(document::specs::Tables::is_list_good))]
pub fn is_list_good(memory: &[u8], list: &[u8]) -> bool
    requires { length memory.now ≡ memory_end }
    ensures { result ≡ is_list_good memory.now list.now }
{
    list.len() <= LIST_LENGTH && list.len() % PAIR == 0 && are_tables_good(memory, list)
}
