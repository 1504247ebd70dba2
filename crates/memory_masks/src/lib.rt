// Masked stores, by and, or and complement: of bytes, and of a word. Who asks has seen that the range may be written.
#![tactic(auto)]

mod bits;
mod bytes;
mod words;

pub use bytes::store_masked;
pub use words::store_masked_word;
