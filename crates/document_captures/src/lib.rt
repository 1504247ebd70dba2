#![tactic(auto)]

// What a capture of the line lists: request 2026-11 as definitions, with rows that are quick to compute. There is no code in it.
