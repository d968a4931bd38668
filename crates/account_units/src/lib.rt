// What the phases did with the statements of a block, as text: the admitted pairs, the chains, the
// packs, the schedule and the dissolved packs, a section each.

#![tactic(auto)]

mod chains;
mod numbers;
mod packs;

pub use chains::{put_chains, put_pairs};
pub use packs::{put_dissolved, put_packs, put_schedule};
