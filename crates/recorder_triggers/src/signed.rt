// Numbers of up to four bytes, unsigned or two's complement.
ghost use Rattle.std.specs.Prelude.{◌≡◌, ◌-◌, ◌*◌, ◌^◌, ◌≤◌, ◌<◌};
ghost use Rattle.document.specs.Values.{twos_complement, signed_value};

// The first number of `size` bytes whose top bit is set.
fn half(size: usize) -> u64
    requires { (1 ≤ size) × (size ≤ 4) }
    ensures { result ≡ 2 ^ (8 * size - 1) }
{
    1u64 << (8 * size - 1)
}

fn twos_complement(size: usize, x: u64) -> i64
    requires { (1 ≤ size) × (size ≤ 4) × (x < 2 ^ (8 * size)) }
    ensures { result ≡ twos_complement size x }
{
    let h = half(size);
    if x < h {
        return x as i64;
    }
    let below = h + h - x;
    0 - (below as i64)
}

// A number of `size` bytes as the sign field reads it; who asks has a number of that size.
pub(crate) fn signed_value(sign: u8, size: usize, x: u32) -> i64
    requires { (1 ≤ size) × (size ≤ 4) × (x < 2 ^ (8 * size)) }
    ensures { result ≡ signed_value sign size x }
{
    if sign == 1 {
        return twos_complement(size, u64::from(x));
    }
    i64::from(x)
}
