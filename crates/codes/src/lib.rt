// Operands as numbers, different ones for different operands. Only cells that stand in a row have
// numbers in a row: variables and constants leave a number out, and so does each array's end.

#![tactic(auto)]

ghost use Rattle.std.specs.Prelude.{◌≡◌, ◌≤◌, ◌-◌, ◌/◌, ◌%◌};
ghost use Rattle.codes.specs.Codes.{place_code, operand_code, codes_in_row, is_cell_code, is_constant_code, is_variable_code, cell_code};

use meaning::{Operand, Place};

pub fn place_code(place: Place) -> u64
    ensures { result ≡ place_code place }
{
    match place {
        Place::Variable(v) => 2 + 2 * u64::from(v),
        Place::Cell(a, i) => 514 + 257 * u64::from(a) + u64::from(i),
    }
}

pub fn operand_code(operand: Operand) -> u64
    ensures { result ≡ operand_code operand }
{
    match operand {
        Operand::Nothing => 0,
        Operand::Constant(c) => 4294967296 + 2 * u64::from(c),
        Operand::Held(place) => place_code(place),
    }
}

// "cells in a row"
pub fn in_row(code: u64, other: u64) -> bool
    ensures { result ≡ codes_in_row code other }
{
    code < other && other - code == 1
}

pub fn is_cell(code: u64) -> bool
    ensures { result ≡ is_cell_code code }
{
    (514..4294967296).contains(&code)
}

pub fn is_constant(code: u64) -> bool
    ensures { result ≡ is_constant_code code }
{
    4294967296 <= code
}

pub fn is_variable(code: u64) -> bool
    ensures { result ≡ is_variable_code code }
{
    (2..514).contains(&code)
}

pub fn cell_count(code: u64) -> u64
    ensures { (result ≡ cell_code code) × (result ≤ 1) }
{
    u64::from(is_cell(code))
}

// The array and the index of a cell, from its code.
pub fn array_of(code: u64) -> u8
    ensures { result ≡ (code - 514) / 257 % 256 }
{
    rows::low_byte(code.saturating_sub(514) / 257)
}

pub fn index_of(code: u64) -> u8
    ensures { result ≡ (code - 514) % 257 % 256 }
{
    rows::low_byte(code.saturating_sub(514) % 257)
}

pub fn variable_of(code: u64) -> u8
    ensures { result ≡ (code - 2) / 2 % 256 }
{
    rows::low_byte(code.saturating_sub(2) / 2)
}

pub fn constant_of(code: u64) -> u64
    ensures { result ≡ (code - 4294967296) / 2 }
{
    code.saturating_sub(4294967296) / 2
}
