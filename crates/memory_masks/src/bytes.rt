// Masked stores byte by byte.
ghost use Rattle.std.specs.Prelude.{◌≡◌, ◌+◌, ◌≤◌, length};
ghost use Rattle.document.specs.Stores.{mask_stored};

use crate::bits::Bits;

// A value without a mask leaves its byte as it is.
pub fn store_masked(memory: &mut [u8], at: usize, values: &[u8], masks: &[u8])
    requires { at + length values.now ≤ length memory.old }
    ensures { memory.new ≡ mask_stored memory.old at values.now masks.now }
{
    for i in 0..values.len().min(masks.len()) {
        let k = at + i;
        memory[k] = memory[k].mixed(values[i], masks[i]);
    }
}
