// And, or and complement on bytes and words, by which a mask picks bits.
ghost use Rattle.std.specs.Prelude.{◌≡◌, ℕ};
ghost use Rattle.document.specs.Stores.{masked};

// A number of so many bits, to which a mask may be put.
pub trait Bits: Sized {
    ghost bits: { ℕ };

    ghost value: { Self → ℕ };

    // A bit set in the mask takes the given value's bit; every other bit stays.
    fn mixed(self, given: Self, mask: Self) -> Self
        ensures { value result ≡ masked bits (value self) (value given) (value mask) };
}

impl Bits for u8 {
    ghost bits = { 8 };

    ghost value = { λ x. x };

    fn mixed(self, given: u8, mask: u8) -> u8 {
        (self & !mask) | (given & mask)
    }
}

impl Bits for u16 {
    ghost bits = { 16 };

    ghost value = { λ x. x };

    fn mixed(self, given: u16, mask: u16) -> u16 {
        (self & !mask) | (given & mask)
    }
}
