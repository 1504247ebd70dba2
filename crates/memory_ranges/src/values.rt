// The numbers that bytes hold: little-endian, of up to four bytes.
ghost use Rattle.std.specs.Prelude.{◌+◌, ◌≤◌, length};
ghost use Rattle.document.specs.Areas.{bytes_at};
ghost use Rattle.memory_ranges.specs.HoldsNumber.{HoldsNumber};

// The number of up to four bytes; who cuts them out of a memory or a message knows how many there are.
pub fn number(bytes: &[u8]) -> u32
    requires { length bytes.now ≤ 4 }
    ensures { HoldsNumber bytes.now (length bytes.now) result }
{
    let mut x: u32 = 0;
    for byte in bytes.iter().rev() {
        x = x * 256 + u32::from(*byte);
    }
    x
}

// The number of `size` bytes at an address; who asks has checked the range.
pub fn number_at(memory: &[u8], address: usize, size: usize) -> u32
    requires { (size ≤ 4) × (address + size ≤ length memory.now) }
    ensures { HoldsNumber (bytes_at memory.now address size) size result }
{
    number(&memory[address..address + size])
}
