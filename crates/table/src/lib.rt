// A block in memory as a table of 652 numbers, for callers that have no structs of ours, and back.

#![tactic(auto)]

pub mod put;
pub mod taken;
