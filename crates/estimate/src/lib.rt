// "Estimate": what a pair would save. The gain and what is taken from it stay apart.

#![tactic(auto)]

ghost use Rattle.std.specs.Prelude.{◌≡◌, ◌≤◌, ◌&&◌};
ghost use Rattle.meaning.specs.Pairs.{pair};
ghost use Rattle.codes.specs.Codes.{is_constant_code};
ghost use Rattle.estimate.specs.Costs.{codes_cost, position_loss, reads_at, reads_pair, are_read, destination_loss, right_loss, loss_of, gain_of, priced};

use facts::Tables;
use pairs::{Admitted, Pair};

fn both_constants(o: u64, other: u64) -> bool
    ensures { result ≡ is_constant_code o && is_constant_code other }
{
    codes::is_constant(o) && codes::is_constant(other)
}

// "Position: 1 for cells in a row or two constants; 0 for variables whose last definitions are, in
// this order, an admitted pair; else 2 plus its cell lanes."
fn operands_cost(o: u64, other: u64, defined: bool) -> u64
    ensures cost { result ≡ codes_cost o other defined }
    ensures at_most { result ≤ 4 }
{
    if codes::in_row(o, other) || both_constants(o, other) {
        1
    } else if defined {
        0
    } else {
        2 + codes::cell_count(o) + codes::cell_count(other)
    }
}

fn position_cost(
    tables: &Tables,
    admitted: &Admitted,
    operand: usize,
    definition: usize,
    p: Pair,
) -> u64
    requires operands { operand ≤ 448 }
    requires definitions { definition ≤ 448 }
    ensures cost { result ≡ position_loss tables.now.facts admitted.now.next operand definition (pair p.left p.right) }
    ensures at_most { result ≤ 4 }
{
    let first = tables.fact(definition, p.left) as usize;
    let second = tables.fact(definition, p.right) as usize;
    operands_cost(
        tables.fact(operand, p.left),
        tables.fact(operand, p.right),
        admitted.has(first, second),
    )
}

// The pair (a, b) reads at this position, in this order, what the pair p defines.
fn reads_at(tables: &Tables, definition: usize, p: Pair, a: usize, b: usize) -> bool
    requires { definition ≤ 448 }
    ensures { result ≡ reads_at tables.now.facts definition (pair p.left p.right) a b }
{
    tables.fact(definition, a) as usize == p.left && tables.fact(definition, b) as usize == p.right
}

// "an admitted pair reads them in this order at one position with t, t' as last definitions"
fn reads_pair(tables: &Tables, admitted: &Admitted, p: Pair, a: usize) -> bool
    ensures { result ≡ reads_pair tables.now.facts admitted.now.next (pair p.left p.right) a }
{
    let b = rows::number_at(&admitted.next, a);
    b != rows::NONE
        && (reads_at(tables, facts::LEFT_DEFINITION, p, a, b)
            || reads_at(tables, facts::RIGHT_DEFINITION, p, a, b))
}

fn are_read(tables: &Tables, admitted: &Admitted, p: Pair) -> bool
    ensures { result ≡ are_read tables.now.facts admitted.now.next (pair p.left p.right) }
{
    rows::members(tables.fact(facts::READERS, p.left)).any(|a| reads_pair(tables, admitted, p, a))
}

// "Destination: cells in a row 1, other cells 4; variables 0 if an admitted pair reads them .., else
// 2."
fn destination_cost(tables: &Tables, admitted: &Admitted, p: Pair) -> u64
    ensures cost { result ≡ destination_loss tables.now.facts admitted.now.next (pair p.left p.right) }
    ensures at_most { result ≤ 4 }
{
    let d = tables.fact(facts::DESTINATION, p.left);
    if codes::is_cell(d) {
        if codes::in_row(d, tables.fact(facts::DESTINATION, p.right)) {
            1
        } else {
            4
        }
    } else if are_read(tables, admitted, p) {
        0
    } else {
        2
    }
}

fn right_cost(tables: &Tables, admitted: &Admitted, p: Pair) -> u64
    ensures cost { result ≡ right_loss tables.now.facts admitted.now.next (pair p.left p.right) }
    ensures at_most { result ≤ 4 }
{
    // a copy, whose operation is 0, has no right position
    if tables.fact(facts::SORT, p.left) < 2 {
        0
    } else {
        position_cost(tables, admitted, facts::RIGHT, facts::RIGHT_DEFINITION, p)
    }
}

#[tactic(auto, unfolding(crate::specs::Costs::loss_of))]
pub fn loss(tables: &Tables, admitted: &Admitted, p: Pair) -> u64
    ensures { result ≡ loss_of tables.now.facts admitted.now.next (pair p.left p.right) }
{
    let left = position_cost(tables, admitted, facts::LEFT, facts::LEFT_DEFINITION, p);
    1 + left + right_cost(tables, admitted, p) + destination_cost(tables, admitted, p)
}

pub fn gain(tables: &Tables, p: Pair) -> u64
    requires { priced tables.now.facts }
    ensures { result ≡ gain_of tables.now.facts (pair p.left p.right) }
{
    tables.fact(facts::PRICE, p.left) + tables.fact(facts::PRICE, p.right)
}
