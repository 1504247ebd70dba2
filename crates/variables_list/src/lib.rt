// Variables that a setup named: up to eight sizes and addresses, and how many may be named.
#![tactic(auto)]

mod questions;

pub use questions::is_count_wrong;

pub const MOST_VARIABLES: usize = 8;

// Definitions behind the count are not looked at.
#[repr(C)]
#[derive(Clone, Copy)]
pub struct Variables {
    pub count: u8,
    pub list: [document::Variable; MOST_VARIABLES],
}
