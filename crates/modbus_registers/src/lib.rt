// Registers between the memory and a frame of the second port: low byte first in the one, high byte first in the other.
#![tactic(auto)]

ghost use Rattle.std.specs.Prelude.{◌≡◌, ◌+◌, ◌≤◌, length};
ghost use Rattle.document.specs.Stores.{stored};
ghost use Rattle.document.specs.Registers.{turned};

// Whole registers into any slice that has room for them, either way; who asks has seen that it has.
pub fn copy_swapped(to: &mut [u8], at: usize, from: &[u8])
    requires { at + length from.now ≤ length to.old }
    ensures { to.new ≡ stored to.old at (turned from.now) }
{
    for register in 0..from.len() / 2 {
        let i = 2 * register;
        let k = at + i;
        to[k] = from[i + 1];
        to[k + 1] = from[i];
    }
}
