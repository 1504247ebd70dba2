// The receiver: bytes to whole messages, one byte a call. It is the small head alone; the 64-byte body stands beside
// it with the caller, and each event says what to do with it.
#![tactic(auto)]

mod step;

// The phases: outside a message, or which literal comes next. A phase is a number, and a flag that waits is one too, since a caller in C
// lends the state as bytes, which may hold anything: every state is stepped, and crates/line_bounds alone says which are right.
pub const IDLE: u8 = 0;

pub const LENGTH_NEXT: u8 = 1;

pub const DATA_NEXT: u8 = 2;

pub const SUM_NEXT: u8 = 3;

#[repr(C)]
#[derive(Clone, Copy)]
pub struct Receiver {
    pub waiting: u8,
    pub phase: u8,
    pub command: u8,
    pub length: u8,
    pub have: u8,
    pub sum: u8,
}

#[derive(Clone, Copy)]
pub enum Event {
    Nothing,
    // This data byte goes to this place, 0 to 63, of the body.
    Keep { at: u8, byte: u8 },
    // A whole message; its sum, modulo 256, is 0 where it is right.
    Whole { command: u8, length: u8, sum: u8 },
}

#[derive(Clone, Copy)]
pub struct Reaction {
    pub next: Receiver,
    pub event: Event,
}
