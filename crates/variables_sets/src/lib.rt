// A set: the bytes of the recorded variables, copied in their order into a place of the ring. Their definitions are read where
// they lie in a block, one by one.
#![tactic(auto)]

ghost use Rattle.std.specs.Prelude.{◌≡◌, true, ◌+◌, ◌*◌, ◌≤◌, length};
ghost use Rattle.document.specs.Areas.{buffer_begin, bytes_at};
ghost use Rattle.document.specs.Stores.{stored};
ghost use Rattle.document.specs.Variables.{definition_width, set_size, values_of};
ghost use Rattle.variables_sets.specs.Recorded.{variables_at, Recordable};

use bytes_fields::{DEFINITION_WIDTH, Field};
use memory_ranges::copy_in;

// How many bytes a set of `count` variables takes, the first of which is defined at `from`.
pub fn set_size(block: &[u8], from: usize, count: usize) -> usize
    requires { (count ≤ 8) × (from + 8 * definition_width true ≤ length block.now) }
    ensures { (result ≡ set_size (variables_at block.now from count)) × (result ≤ 2040) }
{
    let mut size = 0;
    for k in 0..count {
        size += usize::from(block[from + k * DEFINITION_WIDTH]);
    }
    size
}

// The bytes of one variable, read below the ring's place while a part of the place is lent for writing.
fn copy_variable(memory: &mut [u8], from: usize, size: usize, at: usize)
    requires { (from + size ≤ at) × (at + size ≤ length memory.old) }
    ensures { memory.new ≡ stored memory.old at (bytes_at memory.old from size) }
{
    let (recorded, ring) = memory.split_at_mut(at);
    copy_in(&mut ring[..size], 0, &recorded[from..from + size]);
}

// A set of `size` bytes into the place that begins at `at`, behind everything that may be recorded.
pub fn copy_set(memory: &mut [u8], at: usize, size: usize, block: &[u8], from: usize, count: usize)
    requires recordable { Recordable block.now from count }
    requires buffer_begin_le_at { (buffer_begin ≤ at) × (size ≡ set_size (variables_at block.now from count)) × (at + size ≤ length memory.old) }
    ensures { memory.new ≡ stored memory.old at (values_of memory.old (variables_at block.now from count)) }
{
    let mut done = 0;
    for k in 0..count {
        let next = from + k * DEFINITION_WIDTH;
        let address = u32::at(block, next + 1) as usize;
        let width = usize::from(block[next]);
        copy_variable(memory, address, width, at + done);
        done += width;
    }
}
