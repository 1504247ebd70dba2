// The rows of the table of commands: every entry that a command has, once, and the columns that an entry is made of.
#![tactic(auto)]

pub mod columns;
pub mod rows;

pub use rows::row;
