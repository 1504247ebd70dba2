// A run of the recorder: how it begins, what a set changes of it, and its bounds.
#![tactic(auto)]

mod bounds;
mod run;
mod steps;

pub use run::Run;
