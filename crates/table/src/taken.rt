// A block in memory taken from a table of numbers; a number past the table's end is 0.

ghost use Rattle.std.specs.Prelude.{◌≡◌, ◌+◌, ◌≤◌};
ghost use Rattle.basics.specs.Choice.{pick};
ghost use Rattle.table.specs.Said.{place_said, operand_said, number, statement_said_at, from};
ghost use Rattle.table.specs.Taken.{byte_of, length_of, place_of, operand_of, statement_at, length_in, statement_in, block_of};

use meaning::{Block, Operand, Place, Statement};
use slices::at_or;
use std::array;

// A number that its slot cannot hold is taken as the greatest that it can: the writer refuses the two alike.
fn byte_of(n: u32) -> u8
    ensures { result ≡ byte_of n }
{
    u8::try_from(n).unwrap_or(255)
}

fn length_of(n: u32) -> u16
    ensures { result ≡ length_of n }
{
    u16::try_from(n).unwrap_or(65535)
}

// Three numbers that are to say a place or an operand. The kinds 0 to 3 are the C interface's: 0 a constant, 1 a
// variable, 2 a cell, 3 nothing.
#[derive(Clone, Copy)]
struct Three {
    kind: u32,
    a: u32,
    b: u32,
}

fn three_at(table: &[u32], at: usize) -> Three
    requires { at ≤ 1000 }
    ensures { result ≡ record { kind = number table.now at; a = number table.now (at + 1); b = number table.now (at + 2) } }
{
    Three {
        kind: at_or(table, at, 0),
        a: at_or(table, at + 1, 0),
        b: at_or(table, at + 2, 0),
    }
}

// An index above 255 is in no array, and neither is a cell of array 255.
fn cell_of(array: u32, index: u32) -> Place
    ensures { result ≡ place_of 2 array index }
{
    match u8::try_from(index) {
        Ok(index) => Place::Cell(byte_of(array), index),
        Err(_) => Place::Cell(255, 255),
    }
}

// The place that they say, if they say one: a number that stands for nothing has to be 0.
fn place_of(said: Three) -> Option<Place>
    ensures { result ≡ pick (place_said said.kind said.b) (Some (place_of said.kind said.a said.b)) None }
{
    match said.kind {
        1 if said.b == 0 => Some(Place::Variable(byte_of(said.a))),
        2 => Some(cell_of(said.a, said.b)),
        _ => None,
    }
}

fn operand_of(said: Three) -> Option<Operand>
    ensures { result ≡ pick (operand_said said.kind said.a said.b) (Some (operand_of said.kind said.a said.b)) None }
{
    match said.kind {
        0 if said.b == 0 => Some(Operand::Constant(said.a)),
        3 if said.a == 0 && said.b == 0 => Some(Operand::Nothing),
        _ => Some(Operand::Held(place_of(said)?)),
    }
}

#[tactic(auto, unfolding(crate::specs::Taken::statement_at))]
fn statement_said(table: &[u32], at: usize) -> Option<Statement>
    requires { at ≤ 900 }
    ensures { result ≡ pick (statement_said_at table.now at) (Some (statement_at table.now at)) None }
{
    Some(Statement {
        operation: byte_of(at_or(table, at, 0)),
        destination: place_of(three_at(table, at + 1))?,
        left: operand_of(three_at(table, at + 4))?,
        right: operand_of(three_at(table, at + 7))?,
    })
}

// Ten numbers that say no statement are taken as one that the writer refuses.
#[tactic(auto, unfolding(crate::specs::Taken::statement_at))]
fn statement_at(table: &[u32], at: usize) -> Statement
    requires { at ≤ 900 }
    ensures { result ≡ statement_at table.now at }
{
    statement_said(table, at).unwrap_or(Statement {
        operation: 255,
        destination: Place::Variable(0),
        left: Operand::Nothing,
        right: Operand::Nothing,
    })
}

fn lengths_of(table: &[u32]) -> [u16; 8]
    ensures { result ≡ from (length_in table.now) 8 0 }
{
    array::from_fn(|i| length_of(at_or(table, 4 + i, 0)))
}

fn statements_of(table: &[u32]) -> [Statement; 64]
    ensures { result ≡ from (statement_in table.now) 64 0 }
{
    array::from_fn(|i| statement_at(table, 12 + 10 * i))
}

#[tactic(auto, unfolding(crate::specs::Taken::block_of))]
pub fn take_block(table: &[u32]) -> Block
    ensures { result ≡ block_of table.now }
{
    Block {
        variables: byte_of(at_or(table, 0, 0)),
        live: byte_of(at_or(table, 1, 0)),
        arrays: byte_of(at_or(table, 2, 0)),
        count: byte_of(at_or(table, 3, 0)),
        lengths: lengths_of(table),
        statements: statements_of(table),
    }
}
