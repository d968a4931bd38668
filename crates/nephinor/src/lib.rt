// The public calls of document 01, on lent slices and with no demands on the caller. Each promise is one
// equation between all that comes back with all that was lent, and the definition of the call.

#![tactic(auto)]

pub mod exports;
mod packed;

ghost use Rattle.std.specs.Prelude.{◌≡◌};
ghost use Rattle.meaning.specs.Calls.{read_block_call, write_block_call, run_block_call, run_list_call, make_list_call};
ghost use Rattle.maker.specs.Promises.{answer as made};
ghost use Rattle.memory.specs.Lent.{lent};
ghost use Rattle.reader.specs.Answers.{answer as read};
ghost use Rattle.run_block.specs.Answers.{answer as ran};

use meaning::Block;

// "Reading a block": the number, and the block in memory, all zeros beside a refusal.
pub fn read_block(bytes: &[u8]) -> reader::BlockRead
    ensures { read result ≡ read_block_call bytes.now }
{
    reader::read_block(bytes)
}

// Writing a block: the number, the length of the answer, and the answer in the room's first bytes.
pub fn write_block(block: Block, room: &mut [u8]) -> writer::BlockWritten
    ensures { record { status = result.status; size = result.size; room = room.new } ≡ write_block_call block room.old }
{
    writer::write_block(block, room)
}

// Making a list: the number, "list length, block price, list price", and the list in the room's first
// bytes.
pub fn make_list(bytes: &[u8], room: &mut [u8]) -> maker::Made
    ensures { made result room.new ≡ make_list_call bytes.now room.old }
{
    maker::make_list(bytes, room)
}

// Running a block: the number, the price paid, and what was lent as the block leaves it.
pub fn run_block(bytes: &[u8], variables: &mut [u32], cells: &mut [u32]) -> run_block::Ran
    ensures { ran result (lent variables.new cells.new)
        ≡ run_block_call bytes.now (lent variables.old cells.old) }
{
    run_block::run_block(bytes, variables, cells)
}

// Running a list beside its block: the number, the price paid, and what was lent as the list leaves it.
pub fn run_list(
    block_bytes: &[u8],
    bytes: &[u8],
    variables: &mut [u32],
    cells: &mut [u32],
) -> run_block::Ran
    ensures { ran result (lent variables.new cells.new)
        ≡ run_list_call block_bytes.now bytes.now (lent variables.old cells.old) }
{
    run_list::run_list(block_bytes, bytes, variables, cells)
}
