// The card's engine: a list run beside its block.

#![tactic(auto)]

ghost use Rattle.std.specs.Prelude.{◌≡◌, ◌<◌, ◌≤◌, true, [], drop};
ghost use Rattle.basics.specs.Choice.{pick};
ghost use Rattle.meaning.specs.Machine.{right_size};
ghost use Rattle.meaning.specs.Calls.{run_list_call};
ghost use Rattle.meaning.specs.Block.{declared};
ghost use Rattle.meaning.specs.List.{read_records};
ghost use Rattle.memory.specs.Lent.{lent};
ghost use Rattle.lists.specs.Whole.{allowed_of};
ghost use Rattle.run_list.specs.Runs.{first_of, second_of, slot_of, card_of, paid, left};
ghost use Rattle.run_block.specs.Answers.{answer, returned};

use instructions::{Instruction, Register};
use meaning::{Block, Refusal};
use run_block::Ran;

// The register that is read, or the first of two.
fn first_register(i: Instruction) -> u8
    ensures { result ≡ first_of i }
{
    match i {
        Instruction::Copy { ra, .. } | Instruction::O { ra, .. } => ra,
        Instruction::W { r, .. } | Instruction::D { r, .. } | Instruction::X { r, .. } => r,
        _ => 0,
    }
}

// The second register that O reads.
fn second_register(i: Instruction) -> u8
    ensures { result ≡ second_of i }
{
    match i {
        Instruction::O { rb, .. } => rb,
        _ => 0,
    }
}

// One of so many slots; the first where the number is none of theirs.
fn slot(slots: usize, n: u8) -> usize
    requires { 0 < slots }
    ensures exact { result ≡ slot_of slots n }
    ensures inside { result < slots }
{
    let slot = usize::from(n);
    if slot < slots { slot } else { 0 }
}

// How many registers are written: one or none.
fn registers_more(r: Register) -> usize
    ensures exact { result ≡ pick r.current 1 0 }
    ensures one_at_most { result ≤ 1 }
{
    usize::from(r.current)
}

// The records, one after the other, on a table of the registers written so far. A table with one slot
// more than there are registers takes what is not kept. Returns the price paid.
fn run_records(
    block: Block,
    count: usize,
    bytes: &[u8],
    lengths: &[u16],
    variables: &mut [u32],
    cells: &mut [u32],
) -> usize
    requires declared_lengths { lengths.now ≡ (declared block).lengths }
    requires count_in_byte { count ≤ 255 }
    requires is_allowed { allowed_of (declared block) [] (read_records count (drop 4 bytes.now)) ≡ true }
    ensures price { result ≡ paid (declared block) 0 (read_records count (drop 4 bytes.now)) }
    ensures contents { lent variables.new cells.new
        ≡ left (declared block) (card_of [] 0 (lent variables.old cells.old)) (read_records count (drop 4 bytes.now)) }
{
    let mut registers = [card::no_register(); 97];
    let mut n = 0;
    let mut start = 4;
    let mut price = 0;
    for _record in 0..count {
        let next = instructions::next_instruction(bytes, start);
        // No record of a list that is allowed is at fault, so the run never ends here.
        let Some(instruction) = next.instruction else {
            return price;
        };
        let s = block.statements[slot(64, instructions::statement_number(instruction))];
        let a = registers[slot(97, first_register(instruction))];
        let b = registers[slot(97, second_register(instruction))];
        let written = card::step(instruction, s, a, b, lengths, variables, cells);
        registers[n] = written;
        n += registers_more(written);
        price += rules::instruction_price(instruction, s);
        start = next.end;
    }
    price
}

// The lengths of the arrays that are declared: as many of the slots as are counted.
#[tactic(auto, using(basics::proofs::Lists::take_least))]
fn lengths(block: &Block) -> &[u16]
    ensures { result.now ≡ (declared block.now).lengths }
{
    let slots = block.lengths.as_slice();
    &slots[..run_block::at_most(block.arrays, slots.len())]
}

// 6: "variables or cells lent are not exactly as many as declared"
#[tactic(auto, using(run_block::proofs::Sized::all_cells))]
fn sizes_fit(block: &Block, lengths: &[u16], variables: &[u32], cells: &[u32]) -> bool
    requires { lengths.now ≡ (declared block.now).lengths }
    ensures { result ≡ right_size (declared block.now) (lent variables.now cells.now) }
{
    variables.len() == usize::from(block.variables)
        && cells.len() == memory::cell_at(lengths, block.arrays, 0)
}

// "block, 6, then, for a list, all of 8, then 9"; nothing lent is written before all of it is tested.
#[tactic(auto, using(crate::proofs::Calls::block_stopped, crate::proofs::Calls::list_stopped))]
pub fn run(
    block_bytes: &[u8],
    bytes: &[u8],
    variables: &mut [u32],
    cells: &mut [u32],
) -> Result<usize, Refusal>
    ensures { answer (returned result) (lent variables.new cells.new)
        ≡ run_list_call block_bytes.now bytes.now (lent variables.old cells.old) }
{
    let block = reader::parse_block(block_bytes)?;
    let lengths = lengths(&block);
    if !sizes_fit(&block, lengths, variables, cells) {
        return Err(Refusal::Sizes);
    }
    lists::check_list(bytes, block)?;
    let count = usize::from(slices::at_or(bytes, 3, 0));
    Ok(run_records(block, count, bytes, lengths, variables, cells))
}

// The same with the number that is returned.
pub fn run_list(block_bytes: &[u8], bytes: &[u8], variables: &mut [u32], cells: &mut [u32]) -> Ran
    ensures { answer result (lent variables.new cells.new)
        ≡ run_list_call block_bytes.now bytes.now (lent variables.old cells.old) }
{
    Ran::from(run(block_bytes, bytes, variables, cells))
}
