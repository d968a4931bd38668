// One instruction as text: the letter of its code, what it writes, and from what.

ghost use Rattle.std.specs.Prelude.{◌++◌};
ghost use Rattle.text.specs.Text.{words, decimal};
ghost use Rattle.text.specs.Puts.{Puts};
ghost use Rattle.named.specs.Names.{place_text, operand_text, operation_text, statement_text};
ghost use Rattle.account_list.specs.Instructions.{register_text, lane_text, row_text};
ghost use Rattle.account_list.specs.Shown.{slots_text, shown};

use crate::lanes;
use instructions::Instruction;
use meaning::{Operand, Place, Statement};

fn put_s(out: &mut [u8], at: usize, number: u8, statement: Statement) -> usize
    ensures { Puts (words "S " ++ decimal number ++ words ": " ++ statement_text statement) out.old at out.new result }
{
    let behind_letter = text::put_words(out, at, b"S ");
    let behind_number = text::put_decimal(out, behind_letter, u64::from(number));
    let behind_colon = text::put_words(out, behind_number, b": ");
    named::put_statement(out, behind_colon, statement)
}

fn put_l(out: &mut [u8], at: usize, r: u8, k: u8, array: u8, index: u8) -> usize
    ensures { Puts (words "L " ++ register_text r ++ words " =" ++ row_text k array index) out.old at out.new result }
{
    let behind_letter = text::put_words(out, at, b"L ");
    let behind_register = lanes::put_register(out, behind_letter, r);
    let behind_equals = text::put_words(out, behind_register, b" =");
    lanes::put_row(out, behind_equals, k, array, index)
}

// What C and G say, by their letter: a register and what stands in its lanes.
fn put_slots(
    out: &mut [u8],
    at: usize,
    letter: &[u8],
    r: u8,
    k: u8,
    o0: Operand,
    o1: Operand,
    o2: Operand,
    o3: Operand,
) -> usize
    ensures { Puts (letter.now ++ register_text r ++ words " =" ++ slots_text k (operand_text o0) (operand_text o1) (operand_text o2) (operand_text o3)) out.old at out.new result }
{
    let behind_letter = text::put_words(out, at, letter);
    let behind_register = lanes::put_register(out, behind_letter, r);
    let behind_equals = text::put_words(out, behind_register, b" =");
    lanes::put_operands(out, behind_equals, k, o0, o1, o2, o3)
}

// O with no second register, which is all of a copy.
fn put_copy(out: &mut [u8], at: usize, r: u8, ra: u8) -> usize
    ensures { Puts (words "O " ++ register_text r ++ words " = " ++ register_text ra) out.old at out.new result }
{
    let behind_letter = text::put_words(out, at, b"O ");
    let behind_register = lanes::put_register(out, behind_letter, r);
    let behind_equals = text::put_words(out, behind_register, b" = ");
    lanes::put_register(out, behind_equals, ra)
}

fn put_o(out: &mut [u8], at: usize, r: u8, operation: u8, ra: u8, rb: u8) -> usize
    ensures { Puts (words "O " ++ register_text r ++ words " = " ++ register_text ra ++ operation_text operation ++ register_text rb) out.old at out.new result }
{
    let behind_first = put_copy(out, at, r, ra);
    let behind_operation = named::put_operation(out, behind_first, operation);
    lanes::put_register(out, behind_operation, rb)
}

fn put_w(out: &mut [u8], at: usize, r: u8, k: u8, array: u8, index: u8) -> usize
    ensures { Puts (words "W" ++ row_text k array index ++ words " = " ++ register_text r) out.old at out.new result }
{
    let behind_letter = text::put_words(out, at, b"W");
    let behind_row = lanes::put_row(out, behind_letter, k, array, index);
    let behind_equals = text::put_words(out, behind_row, b" = ");
    lanes::put_register(out, behind_equals, r)
}

// What D and X say, by their letter: a place, and the lane that is stored there.
fn put_stored(out: &mut [u8], at: usize, letter: &[u8], place: Place, r: u8, lane: u8) -> usize
    ensures { Puts (letter.now ++ place_text place ++ words " = " ++ lane_text r lane) out.old at out.new result }
{
    let behind_letter = text::put_words(out, at, letter);
    let behind_place = named::put_place(out, behind_letter, place);
    let behind_equals = text::put_words(out, behind_place, b" = ");
    lanes::put_lane(out, behind_equals, r, lane)
}

// An instruction as it was read, with the statement that S names.
pub fn put_instruction(
    out: &mut [u8],
    at: usize,
    instruction: Instruction,
    statement: Statement,
) -> usize
    ensures { Puts (shown instruction statement) out.old at out.new result }
{
    match instruction {
        Instruction::S { number } => put_s(out, at, number, statement),
        Instruction::L { r, k, array, index } => put_l(out, at, r, k, array, index),
        Instruction::C {
            r,
            k,
            c0,
            c1,
            c2,
            c3,
        } => put_slots(
            out,
            at,
            b"C ",
            r,
            k,
            Operand::Constant(c0),
            Operand::Constant(c1),
            Operand::Constant(c2),
            Operand::Constant(c3),
        ),
        Instruction::G {
            r,
            k,
            o0,
            o1,
            o2,
            o3,
        } => put_slots(out, at, b"G ", r, k, o0, o1, o2, o3),
        Instruction::Copy { r, ra, .. } => put_copy(out, at, r, ra),
        Instruction::O {
            r,
            operation,
            ra,
            rb,
            ..
        } => put_o(out, at, r, operation, ra, rb),
        Instruction::W { r, k, array, index } => put_w(out, at, r, k, array, index),
        Instruction::D {
            r,
            lane,
            array,
            index,
        } => put_stored(out, at, b"D ", Place::Cell(array, index), r, lane),
        Instruction::X { r, lane, variable } => put_stored(
            out,
            at,
            b"X ",
            Place::Variable(variable),
            r,
            lane,
        ),
    }
}
