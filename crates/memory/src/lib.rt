// The contents that a caller lends, as blocks and lists use them: places fetched and stored, and one
// statement run. All of it is total: what is outside a slice reads as 0 and takes no store.

#![tactic(auto)]

ghost use Rattle.std.specs.Prelude.{◌≡◌};
ghost use Rattle.meaning.specs.Machine.{cell_at, fetch_place, fetch as fetched, store as stored, run_statement};
ghost use Rattle.memory.specs.Lent.{lent};

use meaning::{Operand, Place, Statement};

// "In lent memory the cells stand array after array": where a cell stands.
pub fn cell_at(lengths: &[u16], array: u8, index: u8) -> usize
    ensures { result ≡ cell_at lengths.now array index }
{
    let mut at = usize::from(index);
    for length in &lengths[..usize::from(array).min(lengths.len())] {
        at += usize::from(*length);
    }
    at
}

pub fn fetch_place(place: Place, lengths: &[u16], variables: &[u32], cells: &[u32]) -> u32
    ensures { result ≡ fetch_place lengths.now (lent variables.now cells.now) place }
{
    match place {
        Place::Variable(v) => slices::at_or(variables, usize::from(v), 0),
        Place::Cell(a, i) => slices::at_or(cells, cell_at(lengths, a, i), 0),
    }
}

pub fn fetch(operand: Operand, lengths: &[u16], variables: &[u32], cells: &[u32]) -> u32
    ensures { result ≡ fetched lengths.now (lent variables.now cells.now) operand }
{
    match operand {
        Operand::Nothing => 0,
        Operand::Constant(c) => c,
        Operand::Held(p) => fetch_place(p, lengths, variables, cells),
    }
}

pub fn store(place: Place, value: u32, lengths: &[u16], variables: &mut [u32], cells: &mut [u32])
    ensures { lent variables.new cells.new
        ≡ stored lengths.now place value (lent variables.old cells.old) }
{
    match place {
        Place::Variable(v) => slices::put(variables, usize::from(v), value),
        Place::Cell(a, i) => slices::put(cells, cell_at(lengths, a, i), value),
    }
}

#[tactic(auto, unfolding(meaning::specs::Machine::run_statement))]
pub fn run_statement(s: Statement, lengths: &[u16], variables: &mut [u32], cells: &mut [u32])
    ensures { lent variables.new cells.new
        ≡ run_statement lengths.now s (lent variables.old cells.old) }
{
    let a = fetch(s.left, lengths, variables, cells);
    let b = fetch(s.right, lengths, variables, cells);
    let value = word::operate(s.operation, a, b);
    store(s.destination, value, lengths, variables, cells);
}
