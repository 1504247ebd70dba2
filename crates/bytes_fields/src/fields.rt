// Numbers of a fixed width in a block, lowest byte first.
ghost use Rattle.std.specs.Prelude.{◌≡◌, ℕ, ◌+◌, ◌≤◌, length};
ghost use Rattle.std.proofs.lemmas.List.Edits.{sets};
ghost use Rattle.document.specs.Areas.{bytes_at};
ghost use Rattle.document.specs.Values.{number, little_endian};

// A number that stands in so many bytes.
pub trait Field: Sized {
    ghost width: { ℕ };

    ghost value: { Self → ℕ };

    // The number that stands at a place.
    fn at(block: &[u8], place: usize) -> Self
        requires { place + width ≤ length block.now }
        ensures { value result ≡ number (bytes_at block.now place width) };

    fn put(self, block: &mut [u8], place: usize)
        requires { place + width ≤ length block.old }
        ensures { block.new ≡ sets block.old place (little_endian width (value self)) };
}

impl Field for u16 {
    ghost width = { 2 };

    ghost value = { λ x. x };

    fn at(block: &[u8], place: usize) -> u16 {
        u16::from_le_bytes([block[place], block[place + 1]])
    }

    fn put(self, block: &mut [u8], place: usize) {
        let [low, high] = self.to_le_bytes();
        block[place] = low;
        block[place + 1] = high;
    }
}

impl Field for u32 {
    ghost width = { 4 };

    ghost value = { λ x. x };

    fn at(block: &[u8], place: usize) -> u32 {
        u32::from_le_bytes([
            block[place],
            block[place + 1],
            block[place + 2],
            block[place + 3],
        ])
    }

    fn put(self, block: &mut [u8], place: usize) {
        let [first, second, third, last] = self.to_le_bytes();
        block[place] = first;
        block[place + 1] = second;
        block[place + 2] = third;
        block[place + 3] = last;
    }
}
