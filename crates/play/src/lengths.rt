// The most room that a script can lend to a writer or to the reader.
pub const LENT: usize = 600;

// The most room that a script can lend to a block.
pub const BLOCK_LENT: usize = 2000;

// The most bytes that a script can have the panel give.
pub const SETUP: usize = 255;

// The most bytes of a frame that a script can give to the second port.
pub const FRAME: usize = 600;

// A room, a station, an address or a size that has no limit of its own.
pub const WIDEST: usize = 65535;

// The most numbers by which a line can name tables: 40 pairs, more than can be registered.
pub const NUMBERS: usize = 80;

// The text that is read at once, which holds the longest line, and the bytes that such a line can give.
pub const TEXT: usize = 1048576;

pub const BYTES: usize = 524288;
