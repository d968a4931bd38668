// The rules of 9 for one instruction, the register that it writes, and what it costs.

#![tactic(auto)]

ghost use Rattle.std.specs.Prelude.{◌≡◌, ◌≤◌, min, take};
ghost use Rattle.meaning.specs.List.{is_next, is_written, has_lane};
ghost use Rattle.rules.specs.Rules.{row_declared, slot_declared, slots_declared, obeys_rules, registers_written, lanes_written};
ghost use Rattle.rules.specs.Price.{slot_price, gather_price, price_of};

use instructions::Instruction;
use meaning::{Operand, Place, Statement};

// The rules. `written` has the lanes of each register so far.

// "each write a new register, numbered 0, 1, 2 in order, at most 96"
fn is_next(written: &[u8], r: u8) -> bool
    ensures { result ≡ is_next written.now r }
{
    usize::from(r) == written.len() && r < 96
}

// "A register that is read must be already written, with the same k"
fn is_written(written: &[u8], r: u8, k: u8) -> bool
    ensures { result ≡ is_written written.now r k }
{
    let i = usize::from(r);
    i < written.len() && written[i] == k
}

// "a lane must be below its k"
fn has_lane(written: &[u8], r: u8, lane: u8) -> bool
    ensures { result ≡ has_lane written.now r lane }
{
    let i = usize::from(r);
    i < written.len() && lane < written[i]
}

// A row of cells never runs on into the next array.
fn declares_row(array: u8, index: u8, k: u8, arrays: u8, lengths: &[u16]) -> bool
    ensures { result ≡ row_declared (take arrays lengths.now) k array index }
{
    let i = usize::from(array);
    array < arrays && i < lengths.len() && u16::from(index) + u16::from(k) <= lengths[i]
}

// An operand in a slot past the lanes is not asked.
fn declares_slot(o: Operand, slot: u8, k: u8, variables: u8, arrays: u8, lengths: &[u16; 8]) -> bool
    ensures { result ≡ slot_declared variables (take arrays lengths.now) k slot o }
{
    k <= slot || reader::declares_operand(o, variables, arrays, lengths)
}

fn declares_two(
    o0: Operand,
    o1: Operand,
    slot: u8,
    k: u8,
    variables: u8,
    arrays: u8,
    lengths: &[u16; 8],
) -> bool
    requires { slot ≤ 2 }
    ensures { result ≡ slots_declared variables (take arrays lengths.now) k slot o0 o1 }
{
    declares_slot(o0, slot, k, variables, arrays, lengths)
        && declares_slot(o1, slot + 1, k, variables, arrays, lengths)
}

// "names a statement, place, lane or register against the rules"
pub fn obeys(
    instruction: Instruction,
    written: &[u8],
    statements: usize,
    variables: u8,
    arrays: u8,
    lengths: &[u16; 8],
) -> bool
    ensures { result ≡ obeys_rules statements variables (take arrays lengths.now) written.now instruction }
{
    match instruction {
        Instruction::S { number } => usize::from(number) < statements,
        Instruction::L { r, k, array, index } => {
            is_next(written, r) && declares_row(array, index, k, arrays, lengths)
        }
        Instruction::C { r, .. } => is_next(written, r),
        Instruction::G {
            r,
            k,
            o0,
            o1,
            o2,
            o3,
        } => {
            is_next(written, r)
                && declares_two(o0, o1, 0, k, variables, arrays, lengths)
                && declares_two(o2, o3, 2, k, variables, arrays, lengths)
        }
        Instruction::Copy { r, k, ra } => is_next(written, r) && is_written(written, ra, k),
        Instruction::O { r, k, ra, rb, .. } => {
            is_next(written, r) && is_written(written, ra, k) && is_written(written, rb, k)
        }
        Instruction::W { r, k, array, index } => {
            is_written(written, r, k) && declares_row(array, index, k, arrays, lengths)
        }
        Instruction::D {
            r,
            lane,
            array,
            index,
        } => {
            has_lane(written, r, lane)
                && reader::declares_place(Place::Cell(array, index), variables, arrays, lengths)
        }
        Instruction::X { r, lane, variable } => {
            has_lane(written, r, lane)
                && reader::declares_place(Place::Variable(variable), variables, arrays, lengths)
        }
    }
}

// The register that is written.

// As many lanes as there are slots.
fn held(k: u8) -> u8
    ensures { result ≡ min k 4 }
{
    k.min(4)
}

// "L, C, G and O each write a new register": how many, and with how many lanes.
pub fn registers_written(instruction: Instruction) -> usize
    ensures { result ≡ registers_written instruction }
{
    match instruction {
        Instruction::L { .. }
        | Instruction::C { .. }
        | Instruction::G { .. }
        | Instruction::Copy { .. }
        | Instruction::O { .. } => 1,
        _ => 0,
    }
}

pub fn lanes_written(instruction: Instruction) -> u8
    ensures { result ≡ lanes_written instruction }
{
    match instruction {
        Instruction::L { k, .. } | Instruction::Copy { k, .. } | Instruction::O { k, .. } => k,
        Instruction::C { k, .. } | Instruction::G { k, .. } => held(k),
        _ => 0,
    }
}

// The price.

// A slot past the lanes costs nothing.
fn slot_price(o: Operand, slot: u8, k: u8) -> usize
    ensures exact { result ≡ slot_price k slot o }
    ensures one_at_most { result ≤ 1 }
{
    if k <= slot {
        0
    } else {
        run_block::cell_operand(o)
    }
}

// "k + cell lanes"
fn gather_price(k: u8, o0: Operand, o1: Operand, o2: Operand, o3: Operand) -> usize
    ensures exact { result ≡ gather_price k o0 o1 o2 o3 }
    ensures eight_at_most { result ≤ 8 }
{
    let lanes = usize::from(held(k));
    let first = slot_price(o0, 0, k) + slot_price(o1, 1, k);
    let second = slot_price(o2, 2, k) + slot_price(o3, 3, k);
    lanes + (first + second)
}

// The column "price", with the statement that S names.
pub fn instruction_price(instruction: Instruction, statement: Statement) -> usize
    ensures { (result ≡ price_of instruction statement) × (result ≤ 8) }
{
    match instruction {
        Instruction::S { .. } => run_block::statement_price(statement),
        Instruction::G {
            k,
            o0,
            o1,
            o2,
            o3,
            ..
        } => gather_price(k, o0, o1, o2, o3),
        Instruction::D { .. } => 2,
        _ => 1,
    }
}
