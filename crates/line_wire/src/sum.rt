// The sum that every message and answer carries, a byte at a time.
ghost use Rattle.std.specs.Prelude.{◌≡◌, [], ◌∷◌, ◌+◌, ◌%◌};
ghost use Rattle.document.specs.Sum.{sum_byte_of};

pub fn added(sum: u8, byte: u8) -> u8
    ensures { result ≡ (sum + byte) % 256 }
{
    sum.wrapping_add(byte)
}

// The byte that takes the sum to 0.
pub fn sum_byte(sum: u8) -> u8
    ensures { result ≡ sum_byte_of (sum ∷ []) }
{
    sum.wrapping_neg()
}
