// Writing a block: from a block in memory, by value, to its bytes in a lent room. "The writer: 3, 4,
// 5, 7, each over the whole block."

#![tactic(auto)]

mod bytes;
mod declared;
mod fits;
mod sizes;

ghost use Rattle.std.specs.Prelude.{◌≡◌, ◌≤◌};
ghost use Rattle.std.specs.Result.{IfErr};
ghost use Rattle.meaning.specs.Numbers.{done};
ghost use Rattle.meaning.specs.Block.{declared};
ghost use Rattle.meaning.specs.Format.{block_bytes};
ghost use Rattle.meaning.specs.Calls.{block_written, write_block_call};
ghost use Rattle.meaning.specs.Refusals.{needed_of};
ghost use Rattle.writer.specs.Refusal.{number_in, refusal_of};
ghost use Rattle.writer.specs.Written.{written};

use meaning::{Block, Refusal};

// The number returned, and the length of the answer: with 0 what was written, with 7 what is needed. `write_block`
// promises both for every block, so they stay side by side; inside, a refusal is a Result.
#[derive(Clone, Copy)]
pub struct BlockWritten {
    pub status: u8,
    pub size: usize,
}

// Why the block itself is refused, if it is. A later test looks at what an earlier one has passed over
// the whole block.
#[tactic(auto, unfolding(crate::specs::Refusal::refusal_of))]
fn check(block: Block) -> Result<(), Refusal>
    ensures judged { number_in result ≡ refusal_of block }
    ensures room_not_asked { IfErr result (λ refusal. needed_of refusal ≡ 0) }
{
    if !fits::counts_fit(block.variables, block.live, block.arrays, block.count)
        || !fits::lengths_fit(block)
    {
        return Err(Refusal::Limits);
    }
    if !fits::all_well_formed(block) {
        return Err(Refusal::Form);
    }
    if !declared::all_declared(block) {
        return Err(Refusal::Undeclared);
    }
    Ok(())
}

// A block that is not refused: its bytes, where the room has as many, and how many they are.
fn fill(block: Block, room: &mut [u8]) -> Result<usize, Refusal>
    requires few_arrays { block.arrays ≤ 8 }
    requires few_statements { block.count ≤ 64 }
    ensures { written result room.new ≡ block_written room.old (done (block_bytes (declared block))) }
{
    let size = sizes::block_size(block);
    if room.len() < size {
        return Err(Refusal::Room { needed: size });
    }
    bytes::write_bytes(block, room, size);
    Ok(size)
}

// The tests of the block come before the room is looked at.
fn write(block: Block, room: &mut [u8]) -> Result<usize, Refusal>
    ensures { written result room.new ≡ write_block_call block room.old }
{
    check(block)?;
    fill(block, room)
}

// "A refusal returns zeros beside its number, except that 7 also returns the length needed."
pub fn write_block(block: Block, room: &mut [u8]) -> BlockWritten
    ensures { record { status = result.status; size = result.size; room = room.new } ≡ write_block_call block room.old }
{
    match write(block, room) {
        Ok(size) => BlockWritten { status: 0, size },
        Err(refusal) => BlockWritten {
            status: refusal.number(),
            size: refusal.needed(),
        },
    }
}
