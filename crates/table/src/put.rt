// A block in memory put into a lent table of numbers, each part where it stands there.

ghost use Rattle.std.specs.Prelude.{◌≡◌, map, ◌≤◌, length};
ghost use Rattle.std.proofs.lemmas.List.Edits.{sets};
ghost use Rattle.basics.specs.Lists.{flat};
ghost use Rattle.table.specs.Table.{place_numbers, operand_numbers, statement_numbers, table_of};

use meaning::{Block, Operand, Place, Statement};

// Three numbers for a place or an operand: the kind, and what it has. The kinds 0 to 3 are the C interface's:
// 0 a constant, 1 a variable, 2 a cell, 3 nothing.
fn place_numbers(place: Place) -> [u32; 3]
    ensures { result ≡ place_numbers place }
{
    match place {
        Place::Variable(v) => [1, u32::from(v), 0],
        Place::Cell(array, index) => [2, u32::from(array), u32::from(index)],
    }
}

fn operand_numbers(operand: Operand) -> [u32; 3]
    ensures { result ≡ operand_numbers operand }
{
    match operand {
        Operand::Nothing => [3, 0, 0],
        Operand::Constant(constant) => [0, constant, 0],
        Operand::Held(place) => place_numbers(place),
    }
}

// Ten numbers for a statement.
fn statement_numbers(statement: Statement) -> [u32; 10]
    ensures { result ≡ statement_numbers statement }
{
    let operation = u32::from(statement.operation);
    let [d, e, f] = place_numbers(statement.destination);
    let [l, m, n] = operand_numbers(statement.left);
    let [r, s, t] = operand_numbers(statement.right);
    [operation, d, e, f, l, m, n, r, s, t]
}

fn put_statements(block: Block, table: &mut [u32])
    requires { 652 ≤ length table.old }
    ensures { table.new ≡ sets table.old 12 (flat (map statement_numbers block.statements)) }
{
    for (i, statement) in block.statements.iter().enumerate() {
        let at = 12 + 10 * i;
        table[at..at + 10].copy_from_slice(&statement_numbers(*statement));
    }
}

pub fn put_block(block: Block, table: &mut [u32])
    requires { 652 ≤ length table.old }
    ensures { table.new ≡ sets table.old 0 (table_of block) }
{
    table[..4].copy_from_slice(&[
        u32::from(block.variables),
        u32::from(block.live),
        u32::from(block.arrays),
        u32::from(block.count),
    ]);
    table[4..12].copy_from_slice(&block.lengths.map(|n| u32::from(n)));
    put_statements(block, table);
}
