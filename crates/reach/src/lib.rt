// "Dependence": what each statement depends on, the paths of dependences, and the last definitions
// of what it reads.

#![tactic(auto)]

ghost use Rattle.std.specs.Prelude.{◌≡◌, ◌≤◌, ◌<◌, length};
ghost use Rattle.reach.specs.Rows.{direct_row, direct_rows, reached_from, reached_rows, no_path, last_definition, tables_with_definitions, add_reader, tables_with_readers};

use facts::Tables;
use meaning::Statement;

// "A later statement depends on an earlier one if it reads what that one writes, writes what that
// one reads, or writes the same place."
fn depends_on(s: Statement, i: usize, tables: &Tables) -> u64
    requires { i < 64 }
    ensures { result ≡ direct_row s i tables.now.numbers tables.now.writers tables.now.lefts tables.now.rights }
{
    let d = codes::place_code(s.destination);
    let read = tables.writing(codes::operand_code(s.left))
        | tables.writing(codes::operand_code(s.right));
    let written = tables.reading_left(d) | tables.reading_right(d) | tables.writing(d);
    (read | written) & rows::below(i)
}

#[tactic(auto, using(crate::proofs::Steps::direct_none, crate::proofs::Steps::direct_more))]
pub fn dependences(statements: &[Statement], tables: &Tables) -> [u64; 64]
    requires { length statements.now ≤ 64 }
    ensures { result ≡ direct_rows statements.now (length statements.now)
        tables.now.numbers tables.now.writers tables.now.lefts tables.now.rights }
{
    let mut direct = [0u64; 64];
    for (i, s) in statements.iter().enumerate() {
        direct[i] = depends_on(*s, i, tables);
    }
    direct
}

// What a statement depends on, and all that each of those reaches.
fn reached_by(direct: u64, reached: &[u64]) -> u64
    ensures { result ≡ reached_from direct reached.now }
{
    rows::members(direct).fold(direct, |row, t| row | slices::at_or(reached, t, 0))
}

#[tactic(auto, using(crate::proofs::Steps::reached_none, crate::proofs::Steps::reached_more))]
pub fn reachability(direct: &[u64], n: usize) -> [u64; 64]
    requires { n ≤ 64 }
    ensures { result ≡ reached_rows direct.now n }
{
    let mut reached = [0u64; 64];
    for i in 0..n {
        reached[i] = reached_by(slices::at_or(direct, i, 0), &reached);
    }
    reached
}

// "Two different statements are independent if no path of dependences joins them."
pub fn independent(reached: &[u64], s: usize, t: usize) -> bool
    ensures { result ≡ no_path reached.now s t }
{
    s != t
        && !rows::has(slices::at_or(reached, s, 0), t)
        && !rows::has(slices::at_or(reached, t, 0), s)
}

// The last definition of an operand before its reader, where that is a variable and has one.
fn definition(code: u64, reader: usize, tables: &Tables) -> usize
    requires { reader < 64 }
    ensures { result ≡ last_definition code reader tables.now.numbers tables.now.writers }
{
    if codes::is_variable(code) {
        rows::last(tables.writing(code) & rows::below(reader))
    } else {
        rows::NONE
    }
}

#[tactic(auto, using(crate::proofs::Steps::defined_none, crate::proofs::Steps::defined_more))]
pub fn fill_definitions(tables: &mut Tables, n: usize)
    requires { n ≤ 64 }
    ensures { tables.new ≡ tables_with_definitions n tables.old }
{
    for i in 0..n {
        let l = definition(tables.fact(facts::LEFT, i), i, tables);
        let r = definition(tables.fact(facts::RIGHT, i), i, tables);
        slices::put(&mut tables.facts, facts::LEFT_DEFINITION + i, l as u64);
        slices::put(&mut tables.facts, facts::RIGHT_DEFINITION + i, r as u64);
    }
}

fn add_reader(facts: &mut [u64], defined: u64, reader: usize)
    requires { reader < 64 }
    ensures { facts.new ≡ add_reader defined reader facts.old }
{
    if defined < 64 {
        rows::join_word(facts, facts::READERS + defined as usize, rows::only(reader));
    }
}

// The readers of each statement's result: "the reader's last definition is that statement".
#[tactic(auto, using(crate::proofs::Steps::read_none, crate::proofs::Steps::read_more))]
pub fn fill_readers(tables: &mut Tables, n: usize)
    requires { n ≤ 64 }
    ensures { tables.new ≡ tables_with_readers n tables.old }
{
    for i in 0..n {
        let left = tables.fact(facts::LEFT_DEFINITION, i);
        add_reader(&mut tables.facts, left, i);
        let right = tables.fact(facts::RIGHT_DEFINITION, i);
        add_reader(&mut tables.facts, right, i);
    }
}
