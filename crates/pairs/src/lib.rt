// "Pairs": the admitted pairs, and what may be admitted to them; and "Seeding", the first of them.

#![tactic(auto)]

ghost use Rattle.std.specs.Prelude.{◌≡◌, [], ◌+◌, ◌≤◌, ◌<◌, length};
ghost use Rattle.meaning.specs.Pairs.{pair};
ghost use Rattle.facts.specs.Facts.{fact_at};
ghost use Rattle.pairs.specs.Admission.{tables, admitted_tables, empty, admitted_in, admit_to, leads_to, may_join, may_pair, first_admitted, cells_above, neighbours_of, seed_tables, seeded_tables};

use facts::Tables;
use meaning::Statement;

// A pair (s, t).
#[derive(Clone, Copy)]
pub struct Pair {
    pub left: usize,
    pub right: usize,
}

// The admitted pairs: the statements that are left in one, in order of admission; for each of these the one that is right
// in it, else NONE; how many pairs there are; and which statements are right in one.
#[derive(Clone, Copy)]
pub struct Admitted {
    pub order: [u8; 64],
    pub next: [u8; 64],
    pub count: usize,
    pub rights: u64,
}

impl Admitted {
    // No pairs yet.
    pub fn none() -> Admitted
        ensures { admitted_tables result ≡ empty }
    {
        Admitted {
            order: [rows::NONE as u8; 64],
            next: [rows::NONE as u8; 64],
            count: 0,
            rights: 0,
        }
    }

    pub fn may_admit(&self, tables: &Tables, reached: &[u64], s: usize, t: usize) -> bool
        ensures { result ≡ may_pair tables.now.facts reached.now (admitted_tables self.now) s t }
    {
        may_be_admitted(
            &tables.facts,
            reached,
            &self.next,
            self.count,
            self.rights,
            s,
            t,
        )
    }

    pub fn has(&self, s: usize, t: usize) -> bool
        ensures { result ≡ admitted_in self.now.next s t }
    {
        s < rows::NONE && t < rows::NONE && rows::number_at(&self.next, s) == t
    }

    // "added pairs at the end"
    pub fn admit(&mut self, s: usize, t: usize)
        requires room { self.old.count ≤ 1000 }
        requires left { s < 64 }
        requires right { t < 64 }
        ensures admitted { admitted_tables self.new ≡ admit_to (pair s t) (admitted_tables self.old) }
        ensures counted { self.new.count ≤ self.old.count + 1 }
    {
        slices::put(&mut self.order, self.count, s as u8);
        slices::put(&mut self.next, s, t as u8);
        self.count += 1;
        self.rights |= rows::only(t);
    }

    // Once (s, t) is admitted s is left in a pair, so only the first t can be.
    fn first_admitted(&self, tables: &Tables, reached: &[u64], s: usize, candidates: u64) -> usize
        ensures first { result ≡ first_admitted tables.now.facts reached.now (admitted_tables self.now) s candidates }
        ensures at_most_none { result ≤ 64 }
    {
        rows::members(candidates)
            .find(|t| self.may_admit(tables, reached, s, *t))
            .unwrap_or(rows::NONE)
    }

    fn seed_one(&mut self, tables: &Tables, reached: &[u64], s: usize, candidates: u64)
        requires room { self.old.count ≤ 1000 }
        requires left { s < 64 }
        ensures seeded { admitted_tables self.new
            ≡ seed_tables tables.now.facts reached.now s candidates (admitted_tables self.old) }
        ensures counted { self.new.count ≤ self.old.count + 1 }
    {
        let t = self.first_admitted(tables, reached, s, candidates);
        if t != rows::NONE {
            self.admit(s, t);
        }
    }
}

// A chain of admitted pairs leads from one statement to another. `next` has for each statement that
// is left in a pair the one that is right in it, else NONE.
fn leads(next: &[u8], from: usize, to: usize, count: usize) -> bool
    ensures { result ≡ leads_to count next.now from to }
{
    let mut at = from;
    // i is not read: it has a name for the invariant, which says how far the chain was followed
    for i in 0..count {
        at = rows::number_at(next, at);
        if at == to {
            return true;
        }
        if at == rows::NONE {
            return false;
        }
    }
    false
}

// "s is not yet left in a pair; t is not yet right in one; no chain of admitted pairs leads from t
// back to s"
fn may_join(next: &[u8], count: usize, rights: u64, s: usize, t: usize) -> bool
    ensures { result ≡ may_join (tables [] next.now count rights) s t }
{
    rows::number_at(next, s) == rows::NONE && !rows::has(rights, t) && !leads(next, t, s, count)
}

// A statement's sort, from the columns of facts.
fn sort_of(facts: &[u64], s: usize) -> u64
    ensures { result ≡ fact_at facts.now 192 s }
{
    if s < 64 {
        slices::at_or(facts, facts::SORT + s, 0)
    } else {
        0
    }
}

// The test by which a pair is admitted, over tables of any length: the columns of facts, the rows of
// what each statement reaches, the partners, how many pairs there are, and who is right in one.
pub fn may_be_admitted(
    facts: &[u64],
    reached: &[u64],
    next: &[u8],
    count: usize,
    rights: u64,
    s: usize,
    t: usize,
) -> bool
    ensures { result ≡ may_pair facts.now reached.now (tables [] next.now count rights) s t }
{
    sort_of(facts, s) == sort_of(facts, t)
        && reach::independent(reached, s, t)
        && may_join(next, count, rights, s, t)
}

// The statements that have in this position a cell of the same array, one above the one that the
// code stands for.
fn above(tables: &Tables, named: &[u64], code: u64) -> u64
    ensures { result ≡ cells_above tables.now.numbers named.now code }
{
    if codes::is_cell(code) {
        facts::naming(&tables.numbers, named, code + 1)
    } else {
        0
    }
}

// And "in some position (destination, left, right)".
fn neighbours(s: Statement, tables: &Tables) -> u64
    ensures { result ≡ neighbours_of s tables.now.numbers tables.now.writers tables.now.lefts tables.now.rights }
{
    above(tables, &tables.writers, codes::place_code(s.destination))
        | above(tables, &tables.lefts, codes::operand_code(s.left))
        | above(tables, &tables.rights, codes::operand_code(s.right))
}

#[tactic(auto, using(crate::proofs::Steps::seeded_none, crate::proofs::Steps::seeded_more))]
pub fn seed(statements: &[Statement], tables: &Tables, reached: [u64; 64]) -> Admitted
    requires { length statements.now ≤ 64 }
    ensures seeded { admitted_tables result
        ≡ seeded_tables statements.now (length statements.now) tables.now.facts reached
        tables.now.numbers tables.now.writers tables.now.lefts tables.now.rights empty }
    ensures counted { result.count ≤ length statements.now }
{
    let mut admitted = Admitted::none();
    for (i, s) in statements.iter().enumerate() {
        admitted.seed_one(tables, &reached, i, neighbours(*s, tables));
    }
    admitted
}
