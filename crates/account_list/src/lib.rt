// The instructions of a list as text, a line each, with the price of each.

#![tactic(auto)]

mod instruction;
mod lanes;
mod section;

pub use section::put_instructions;
