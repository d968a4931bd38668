// The card at work: one instruction done on the contents lent, with the registers that it reads by
// value, and the register that it writes handed back.

#![tactic(auto)]

ghost use Rattle.std.specs.Prelude.{◌≡◌, ◌+◌, ◌<◌, true, get_or, set};
ghost use Rattle.meaning.specs.Machine.{cell_at, fetch as fetched};
ghost use Rattle.meaning.specs.Card.{operate_lanes};
ghost use Rattle.memory.specs.Lent.{lent};
ghost use Rattle.card.specs.Registers.{held, blank, holding, row_stored};
ghost use Rattle.card.specs.Step.{writes, lanes_after, contents_after};

use instructions::{Instruction, Register};
use meaning::{Operand, Place, Statement};

pub fn no_register() -> Register
    ensures { result ≡ blank }
{
    Register {
        lanes: [0; 4],
        count: 0,
        current: false,
    }
}

fn new_register(count: u8, v0: u32, v1: u32, v2: u32, v3: u32) -> Register
    ensures { result ≡ holding count v0 v1 v2 v3 }
{
    Register {
        lanes: [v0, v1, v2, v3],
        count,
        current: true,
    }
}

// One lane that is held, or 0.
fn lane_of(a: Register, lane: usize) -> u32
    ensures { result ≡ get_or (held a) lane 0 }
{
    if lane < usize::from(a.count) {
        slices::at_or(&a.lanes, lane, 0)
    } else {
        0
    }
}

// The cell that stands so many behind another, or 0. A sum past the last index is past the cells too.
fn behind(cells: &[u32], at: usize, j: usize) -> u32
    ensures { result ≡ get_or cells.now (at + j) 0 }
{
    slices::at_or(cells, at.saturating_add(j), 0)
}

// "loads k cells in a row"
fn load(k: u8, array: u8, index: u8, lengths: &[u16], cells: &[u32]) -> Register
    ensures { result ≡ holding k
        (get_or cells.now (cell_at lengths.now array index + 0) 0)
        (get_or cells.now (cell_at lengths.now array index + 1) 0)
        (get_or cells.now (cell_at lengths.now array index + 2) 0)
        (get_or cells.now (cell_at lengths.now array index + 3) 0) }
{
    let at = memory::cell_at(lengths, array, index);
    let v0 = behind(cells, at, 0);
    let v1 = behind(cells, at, 1);
    let v2 = behind(cells, at, 2);
    let v3 = behind(cells, at, 3);
    new_register(k, v0, v1, v2, v3)
}

// "gathers lanes"
fn gather(
    k: u8,
    o0: Operand,
    o1: Operand,
    o2: Operand,
    o3: Operand,
    lengths: &[u16],
    variables: &[u32],
    cells: &[u32],
) -> Register
    ensures { result ≡ holding k
        (fetched lengths.now (lent variables.now cells.now) o0)
        (fetched lengths.now (lent variables.now cells.now) o1)
        (fetched lengths.now (lent variables.now cells.now) o2)
        (fetched lengths.now (lent variables.now cells.now) o3) }
{
    let v0 = memory::fetch(o0, lengths, variables, cells);
    let v1 = memory::fetch(o1, lengths, variables, cells);
    let v2 = memory::fetch(o2, lengths, variables, cells);
    let v3 = memory::fetch(o3, lengths, variables, cells);
    new_register(k, v0, v1, v2, v3)
}

// "works lane by lane"; a lane that the second register lacks is 0.
fn work(operation: u8, a: Register, b: Register) -> Register
    ensures written { result.current ≡ true }
    ensures worked { held result ≡ operate_lanes operation (held a) (held b) }
{
    let lanes = a.lanes;
    let v0 = word::operate(operation, lanes[0], lane_of(b, 0));
    let v1 = word::operate(operation, lanes[1], lane_of(b, 1));
    let v2 = word::operate(operation, lanes[2], lane_of(b, 2));
    let v3 = word::operate(operation, lanes[3], lane_of(b, 3));
    new_register(a.count, v0, v1, v2, v3)
}

// The cell that stands so many behind another takes the value, where there is one.
fn put_behind(cells: &mut [u32], at: usize, j: usize, value: u32)
    ensures { cells.new ≡ set cells.old (at + j) value }
{
    slices::put(cells, at.saturating_add(j), value);
}

// "stores k cells in a row"
fn store_row(k: u8, at: usize, a: Register, cells: &mut [u32])
    ensures { cells.new ≡ row_stored k at (held a) cells.old }
{
    let n = run_block::at_most(k, run_block::at_most(a.count, 4));
    for j in 0..n {
        put_behind(cells, at, j, lane_of(a, j));
    }
}

// One instruction: `s` is the statement that it names, `a` and `b` are the registers that it reads.
#[tactic(auto, unfolding(crate::specs::Step::lanes_after, crate::specs::Step::contents_after))]
pub fn step(
    i: Instruction,
    s: Statement,
    a: Register,
    b: Register,
    lengths: &[u16],
    variables: &mut [u32],
    cells: &mut [u32],
) -> Register
    ensures { (result.current ≡ writes i)
        × (held result ≡ lanes_after lengths.now (lent variables.old cells.old) (held a) (held b) i)
        × (lent variables.new cells.new
        ≡ contents_after lengths.now s (held a) i (lent variables.old cells.old)) }
{
    match i {
        Instruction::S { .. } => {
            memory::run_statement(s, lengths, variables, cells);
            no_register()
        }
        Instruction::L {
            k,
            array,
            index,
            ..
        } => load(k, array, index, lengths, cells),
        Instruction::C {
            k,
            c0,
            c1,
            c2,
            c3,
            ..
        } => new_register(k, c0, c1, c2, c3),
        Instruction::G {
            k,
            o0,
            o1,
            o2,
            o3,
            ..
        } => gather(k, o0, o1, o2, o3, lengths, variables, cells),
        Instruction::Copy { .. } => work(0, a, no_register()),
        Instruction::O { operation, .. } => work(operation, a, b),
        Instruction::W {
            k,
            array,
            index,
            ..
        } => {
            let at = memory::cell_at(lengths, array, index);
            store_row(k, at, a, cells);
            no_register()
        }
        Instruction::D {
            lane,
            array,
            index,
            ..
        } => {
            let value = lane_of(a, usize::from(lane));
            memory::store(Place::Cell(array, index), value, lengths, variables, cells);
            no_register()
        }
        Instruction::X { lane, variable, .. } => {
            let value = lane_of(a, usize::from(lane));
            memory::store(Place::Variable(variable), value, lengths, variables, cells);
            no_register()
        }
    }
}
