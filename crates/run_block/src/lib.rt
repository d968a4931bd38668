// The workstation's engine: a block run statement by statement, and its price.

#![tactic(auto)]

ghost use Rattle.std.specs.Prelude.{◌≡◌, min, ◌≤◌};
ghost use Rattle.meaning.specs.Block.{declared, statement_price, block_price, cell_place, cell_operand};
ghost use Rattle.basics.specs.Lists.{each};
ghost use Rattle.meaning.specs.Machine.{run_statement};
ghost use Rattle.meaning.specs.Calls.{run_block_call};
ghost use Rattle.memory.specs.Lent.{lent};
ghost use Rattle.run_block.specs.Answers.{answer, returned, after_reading};

use meaning::{Block, Operand, Place, Refusal, Statement};

fn cell_place(p: Place) -> usize
    ensures { (result ≡ cell_place p) × (result ≤ 1) }
{
    usize::from(matches!(p, Place::Cell(..)))
}

pub fn cell_operand(o: Operand) -> usize
    ensures { (result ≡ cell_operand o) × (result ≤ 1) }
{
    usize::from(matches!(o, Operand::Held(Place::Cell(..))))
}

// "cell operands + 1, + 1 if it writes a cell"
pub fn statement_price(s: Statement) -> usize
    ensures { (result ≡ statement_price s) × (result ≤ 4) }
{
    cell_operand(s.left) + cell_operand(s.right) + 1 + cell_place(s.destination)
}

// How many of a count's slots there are.
pub fn at_most(count: u8, slots: usize) -> usize
    ensures { result ≡ min count slots }
{
    usize::from(count).min(slots)
}

// The statements that are declared: as many of the slots as are counted.
#[tactic(auto, using(basics::proofs::Lists::take_least))]
fn statements(block: &Block) -> &[Statement]
    ensures { result.now ≡ (declared block.now).statements }
{
    let slots = block.statements.as_slice();
    &slots[..at_most(block.count, slots.len())]
}

// "The price of a block is the sum of its statements' S prices."
#[tactic(auto, unfolding(meaning::specs::Block::block_price))]
pub fn block_price(block: Block) -> usize
    ensures { result ≡ block_price (declared block).statements }
{
    let mut price = 0;
    for s in statements(&block) {
        price += statement_price(*s);
    }
    price
}

fn run_statements(block: Block, lengths: &[u16], variables: &mut [u32], cells: &mut [u32])
    ensures { lent variables.new cells.new
        ≡ each (run_statement lengths.now) (declared block).statements (lent variables.old cells.old) }
{
    for s in statements(&block) {
        memory::run_statement(*s, lengths, variables, cells);
    }
}

// What running returns: zeros beside a refusal, else the price paid. The public calls promise the number and the zero, so
// they stay side by side; `run` answers by a Result.
#[derive(Clone, Copy)]
pub struct Ran {
    pub status: u8,
    pub price: usize,
}

impl From<Result<usize, Refusal>> for Ran {
    ghost from_gives = { λ outcome ran. ran ≡ returned outcome };

    fn from(outcome: Result<usize, Refusal>) -> Ran {
        match outcome {
            Ok(price) => Ran { status: 0, price },
            Err(refusal) => Ran {
                status: refusal.number(),
                price: 0,
            },
        }
    }
}

// "variables or cells lent are not exactly as many as declared" is 6; then the run.
#[tactic(auto, using(crate::proofs::Sized::wrong_variables, crate::proofs::Sized::wrong_cells, crate::proofs::Sized::right_sizes, crate::proofs::Sized::all_cells))]
fn run_sized(
    block: Block,
    lengths: &[u16],
    variables: &mut [u32],
    cells: &mut [u32],
) -> Result<usize, Refusal>
    requires { lengths.now ≡ (declared block).lengths }
    ensures { answer (returned result) (lent variables.new cells.new)
        ≡ after_reading (declared block) (lent variables.old cells.old) }
{
    if variables.len() != usize::from(block.variables) {
        return Err(Refusal::Sizes);
    }
    if cells.len() != memory::cell_at(lengths, block.arrays, 0) {
        return Err(Refusal::Sizes);
    }
    run_statements(block, lengths, variables, cells);
    Ok(block_price(block))
}

#[tactic(auto, using(basics::proofs::Lists::take_least))]
fn run_read(block: Block, variables: &mut [u32], cells: &mut [u32]) -> Result<usize, Refusal>
    ensures { answer (returned result) (lent variables.new cells.new)
        ≡ after_reading (declared block) (lent variables.old cells.old) }
{
    let slots = block.lengths.as_slice();
    run_sized(
        block,
        &slots[..at_most(block.arrays, slots.len())],
        variables,
        cells,
    )
}

// "Running: block, 6": nothing lent is written before both are tested.
#[tactic(auto, using(crate::proofs::Read::stopped, crate::proofs::Read::went_on))]
pub fn run(bytes: &[u8], variables: &mut [u32], cells: &mut [u32]) -> Result<usize, Refusal>
    ensures { answer (returned result) (lent variables.new cells.new)
        ≡ run_block_call bytes.now (lent variables.old cells.old) }
{
    let block = reader::parse_block(bytes)?;
    run_read(block, variables, cells)
}

// The same with the number that is returned.
pub fn run_block(bytes: &[u8], variables: &mut [u32], cells: &mut [u32]) -> Ran
    ensures { answer result (lent variables.new cells.new)
        ≡ run_block_call bytes.now (lent variables.old cells.old) }
{
    Ran::from(run(bytes, variables, cells))
}
