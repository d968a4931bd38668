// Places, operands and statements as text, for the people who read what the programs print.

#![tactic(auto)]

ghost use Rattle.text.specs.Puts.{Puts};
ghost use Rattle.named.specs.Names.{variable_text, cell_text, place_text, operand_text, operation_text, statement_text};

use meaning::{Operand, Place, Statement};

fn put_variable(out: &mut [u8], at: usize, v: u8) -> usize
    ensures { Puts (variable_text v) out.old at out.new result }
{
    let behind = text::put_words(out, at, b"V");
    text::put_decimal(out, behind, u64::from(v))
}

fn put_cell(out: &mut [u8], at: usize, array: u8, index: u8) -> usize
    ensures { Puts (cell_text array index) out.old at out.new result }
{
    let behind_letter = text::put_words(out, at, b"A");
    let behind_array = text::put_decimal(out, behind_letter, u64::from(array));
    let behind_bracket = text::put_words(out, behind_array, b"[");
    let behind_index = text::put_decimal(out, behind_bracket, u64::from(index));
    text::put_words(out, behind_index, b"]")
}

#[tactic(auto, unfolding(crate::specs::Names::place_text))]
pub fn put_place(out: &mut [u8], at: usize, place: Place) -> usize
    ensures { Puts (place_text place) out.old at out.new result }
{
    match place {
        Place::Variable(v) => put_variable(out, at, v),
        Place::Cell(array, index) => put_cell(out, at, array, index),
    }
}

#[tactic(auto, unfolding(crate::specs::Names::operand_text), using(text::proofs::Putting::nothing))]
pub fn put_operand(out: &mut [u8], at: usize, operand: Operand) -> usize
    ensures { Puts (operand_text operand) out.old at out.new result }
{
    match operand {
        Operand::Nothing => at,
        Operand::Constant(c) => text::put_decimal(out, at, u64::from(c)),
        Operand::Held(place) => put_place(out, at, place),
    }
}

// What stands between two operands, nothing for a copy and for what is no operation.
#[tactic(auto, unfolding(crate::specs::Names::operation_text), using(text::proofs::Putting::nothing))]
pub fn put_operation(out: &mut [u8], at: usize, operation: u8) -> usize
    ensures { Puts (operation_text operation) out.old at out.new result }
{
    match operation {
        1 => text::put_words(out, at, b" + "),
        2 => text::put_words(out, at, b" - "),
        3 => text::put_words(out, at, b" * "),
        4 => text::put_words(out, at, b" & "),
        5 => text::put_words(out, at, b" | "),
        6 => text::put_words(out, at, b" ^ "),
        7 => text::put_words(out, at, b" >> "),
        _ => at,
    }
}

pub fn put_statement(out: &mut [u8], at: usize, statement: Statement) -> usize
    ensures { Puts (statement_text statement) out.old at out.new result }
{
    let behind_destination = put_place(out, at, statement.destination);
    let behind_equals = text::put_words(out, behind_destination, b" = ");
    let behind_left = put_operand(out, behind_equals, statement.left);
    let behind_operation = put_operation(out, behind_left, statement.operation);
    put_operand(out, behind_operation, statement.right)
}
