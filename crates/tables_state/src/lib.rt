#![tactic(auto)]

// The registered tables in the target's state: how many there are, and an address and a size of 2 bytes for each.
pub const MOST_TABLES: u8 = 16;

pub const PAIR: usize = 4;

pub const LIST_LENGTH: usize = 16 * PAIR;
