// How long data and answers may be, named as the definitions name them.
ghost use Rattle.std.specs.Prelude.{◌≡◌};
ghost use Rattle.document.specs.Kinds.{fast_length};

// A data part, either way.
pub const MOST_DATA: usize = 64;

// The same where a count is one byte.
pub const MOST_DATA_BYTE: u8 = MOST_DATA as u8;

// Commands from here on are fast: their code gives the data length, and no length byte follows.
pub const FIRST_FAST: u8 = 0xC0;

// "At 0xC0 and above, bits 5 and 4 give the data length"
pub fn fast_length(command: u8) -> u8
    ensures { result ≡ fast_length command }
{
    command / 16 % 4 * 2
}

// Start, status, and 65 bytes that may all be doubled.
pub const ANSWER_ROOM: usize = 132;
