// Plain stores.
ghost use Rattle.std.specs.Prelude.{◌≡◌, ◌+◌, ◌≤◌, length};
ghost use Rattle.document.specs.Stores.{stored};

// Bytes into any slice that has room for them; who asks has seen that it has.
pub fn copy_in(memory: &mut [u8], at: usize, bytes: &[u8])
    requires { at + length bytes.now ≤ length memory.old }
    ensures { memory.new ≡ stored memory.old at bytes.now }
{
    for (i, byte) in bytes.iter().enumerate() {
        memory[at + i] = *byte;
    }
}
