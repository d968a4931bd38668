// What the phases ask of a block's statements, worked out once.
//
// The facts of each statement stand in columns of 64: the codes of its destination and its operands,
// its sort (operation and kind of destination), its price, the last definitions of its operands, and
// the statements that read its result. Places are few: each gets a number from 1 up, so that tables
// of rows by place stay small. 0 is the number of what is no place, and of a place that the block
// does not name.

#![tactic(auto)]

ghost use Rattle.std.specs.Prelude.{◌≡◌, ◌+◌, ◌≤◌, ◌<◌, length, get_or};
ghost use Rattle.facts.specs.Facts.{fact_at, state_facts};
ghost use Rattle.facts.specs.Filled.{no_tables, with_facts, with_places};
ghost use Rattle.facts.specs.Places.{named_tables, name_place, name_places, naming as naming_this};

use meaning::Statement;

// The columns of facts; the number of each place by its code; and by number the statements that write
// the place, that read it on the left, and that read it on the right.
//
// These are some eleven kilobytes: they are lent, and never passed on by value.
#[derive(Clone, Copy)]
pub struct Tables {
    pub facts: [u64; 512],
    pub numbers: [u8; 2570],
    pub writers: [u64; 193],
    pub lefts: [u64; 193],
    pub rights: [u64; 193],
}

impl Tables {
    // The tables of no statement.
    pub fn empty() -> Tables
        ensures { result ≡ no_tables }
    {
        Tables {
            facts: [0; 512],
            numbers: [0; 2570],
            writers: [0; 193],
            lefts: [0; 193],
            rights: [0; 193],
        }
    }

    // The columns that the statements fill by themselves.
    #[tactic(auto, using(crate::proofs::Steps::stated_none, crate::proofs::Steps::stated_more))]
    pub fn fill_facts(&mut self, statements: &[Statement])
        requires { length statements.now ≤ 64 }
        ensures { self.new ≡ with_facts statements.now self.old }
    {
        for (i, s) in statements.iter().enumerate() {
            state_facts(&mut self.facts, i, *s);
        }
    }

    // A number for each place that the first n statements name, and by number who names it.
    pub fn fill_places(&mut self, n: usize)
        requires { n ≤ 64 }
        ensures { self.new ≡ with_places n self.old }
    {
        let Tables {
            facts,
            numbers,
            writers,
            lefts,
            rights,
        } = self;
        let first = name_places(facts, DESTINATION, n, numbers, writers, 0);
        let second = name_places(facts, LEFT, n, numbers, lefts, first);
        name_places(facts, RIGHT, n, numbers, rights, second);
    }

    // What a statement has in a column.
    pub fn fact(&self, column: usize, s: usize) -> u64
        requires { column ≤ 448 }
        ensures { result ≡ fact_at self.now.facts column s }
    {
        if s < 64 {
            slices::at_or(&self.facts, column + s, 0)
        } else {
            0
        }
    }

    // The statements that write what the code stands for.
    pub fn writing(&self, code: u64) -> u64
        ensures { result ≡ naming_this self.now.numbers self.now.writers code }
    {
        naming(&self.numbers, &self.writers, code)
    }

    // Those that read it on the left.
    pub fn reading_left(&self, code: u64) -> u64
        ensures { result ≡ naming_this self.now.numbers self.now.lefts code }
    {
        naming(&self.numbers, &self.lefts, code)
    }

    // Those that read it on the right.
    pub fn reading_right(&self, code: u64) -> u64
        ensures { result ≡ naming_this self.now.numbers self.now.rights code }
    {
        naming(&self.numbers, &self.rights, code)
    }
}

pub const DESTINATION: usize = 0;

pub const LEFT: usize = 64;

pub const RIGHT: usize = 128;

pub const SORT: usize = 192;

pub const PRICE: usize = 256;

pub const LEFT_DEFINITION: usize = 320;

pub const RIGHT_DEFINITION: usize = 384;

pub const READERS: usize = 448;

// The columns that a statement fills by itself.
fn state_facts(facts: &mut [u64], i: usize, s: Statement)
    requires { i < 64 }
    ensures { facts.new ≡ state_facts i s facts.old }
{
    let d = codes::place_code(s.destination);
    let l = codes::operand_code(s.left);
    let r = codes::operand_code(s.right);
    slices::put(facts, DESTINATION + i, d);
    slices::put(facts, LEFT + i, l);
    slices::put(facts, RIGHT + i, r);
    slices::put(
        facts,
        SORT + i,
        2 * u64::from(s.operation) + codes::cell_count(d),
    );
    slices::put(
        facts,
        PRICE + i,
        codes::cell_count(l) + codes::cell_count(r) + 1 + codes::cell_count(d),
    );
}

fn place_number(numbers: &[u8], code: u64) -> usize
    ensures { result ≡ get_or numbers.now code 0 }
{
    usize::from(slices::at_or(numbers, code as usize, 0))
}

// Statement i names the place: a number for it if it has none yet, and i among those that name it.
// Back comes how many numbers are given.
fn name_place(numbers: &mut [u8], named: &mut [u64], code: u64, i: usize, given: u8) -> u8
    requires { (i < 64) × (given < 192) }
    ensures { (named_tables numbers.new named.new result
        ≡ name_place code i (named_tables numbers.old named.old given)) × (result ≤ given + 1) }
{
    let at = code as usize;
    if at == 0 || at >= numbers.len() {
        return given;
    }
    let number = numbers[at];
    if number != 0 {
        rows::join_word(named, usize::from(number), rows::only(i));
        return given;
    }
    numbers[at] = given + 1;
    rows::join_word(named, usize::from(given) + 1, rows::only(i));
    given + 1
}

// For each place the statements that name it in this column. Numbers go on from those that earlier
// columns were given.
#[tactic(auto, using(crate::proofs::Steps::named_none, crate::proofs::Steps::named_more))]
fn name_places(
    facts: &[u64],
    column: usize,
    n: usize,
    numbers: &mut [u8],
    named: &mut [u64],
    before: u8,
) -> u8
    requires { (n ≤ 64) × ((before ≤ 128) × (column ≤ 448)) }
    ensures { (named_tables numbers.new named.new result
        ≡ name_places facts.now column n (named_tables numbers.old named.old before)) × (result ≤ before + n) }
{
    let mut given = before;
    for i in 0..n {
        given = name_place(
            numbers,
            named,
            slices::at_or(facts, column + i, 0),
            i,
            given,
        );
    }
    given
}

// The statements that name what the code stands for, of one of the tables by number.
pub fn naming(numbers: &[u8], named: &[u64], code: u64) -> u64
    ensures { result ≡ naming_this numbers.now named.now code }
{
    slices::at_or(named, place_number(numbers, code), 0)
}
