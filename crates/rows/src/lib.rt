// Sets of statements as words, bit i for statement i, and tables of numbers that may be read and
// written at any index.

#![tactic(auto)]

ghost use Rattle.std.specs.Prelude.{◌≡◌, ◌<◌, ◌≤◌, ◌-◌, ◌^◌, ◌%◌, get_or, set as replaced};
ghost use Rattle.std.specs.Int.Count.{count_trailing_zeros};
ghost use Rattle.std.specs.Iterator.{YieldsFirst, item_count};
ghost use Rattle.basics.specs.Sets.{only as only_this, join, has as holds};
ghost use Rattle.rows.specs.Walk.{behind_first, highest, members};

// No statement has this number. It stands for none in tables of bytes and of words, whose size is fixed, and
// `highest`, `last_definition`, `first_admitted`, `leads_to` and `number_of` say 64 for it: hence no Option.
pub const NONE: usize = 64;

pub fn only(i: usize) -> u64
    requires { i < 64 }
    ensures { result ≡ only_this i }
{
    1u64 << i
}

// All that come before i.
pub fn below(i: usize) -> u64
    requires { i < 64 }
    ensures { result ≡ 2 ^ i - 1 }
{
    (1u64 << i) - 1
}

pub fn has(set: u64, i: usize) -> bool
    ensures { result ≡ holds set i }
{
    i < 64 && (set >> i) & 1 == 1
}

// The lowest of a set, NONE where it is empty; and the set without it.
pub fn first(set: u64) -> usize
    ensures { (result ≡ count_trailing_zeros 64 set) × (result ≤ 64) }
{
    set.trailing_zeros() as usize
}

pub fn behind_first(set: u64) -> u64
    ensures { result ≡ behind_first set }
{
    set & set.wrapping_sub(1)
}

// A walk over the members of a set, the lowest first. `rest` has those that are yet to come.
#[derive(Clone, Copy)]
pub struct Walk {
    pub rest: u64,
}

impl Iterator for Walk {
    type Item = usize;

    ghost next_gives = { YieldsFirst (λ walk. members walk.rest) };

    ghost remaining = { item_count (λ walk. members walk.rest) };

    fn next(&mut self) -> Option<usize> {
        if self.rest == 0 {
            return None;
        }
        let lowest = first(self.rest);
        self.rest = behind_first(self.rest);
        Some(lowest)
    }
}

pub fn members(set: u64) -> Walk
    ensures { result.rest ≡ set }
{
    Walk { rest: set }
}

// The highest of a set, NONE where it is empty.
pub fn last(set: u64) -> usize
    ensures { (result ≡ highest set) × (result ≤ 64) }
{
    if set == 0 {
        return NONE;
    }
    63 - set.leading_zeros() as usize
}

// The set at i takes in what is in the other.
pub fn join_word(table: &mut [u64], i: usize, set: u64)
    ensures { table.new ≡ replaced table.old i (join (get_or table.old i 0) set) }
{
    slices::put(table, i, slices::at_or(table, i, 0) | set);
}

// A statement's number from a table of them, NONE past its end.
pub fn number_at(table: &[u8], i: usize) -> usize
    ensures { (result ≡ get_or table.now i 64) × (result < 256) }
{
    usize::from(slices::at_or(table, i, NONE as u8))
}

// The lowest byte of a number.
pub fn low_byte(number: u64) -> u8
    ensures { result ≡ number % 256 }
{
    (number % 256) as u8
}
