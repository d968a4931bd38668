// The admitted pairs, and the chains that they join into.

ghost use Rattle.text.specs.Puts.{Puts};
ghost use Rattle.account_units.specs.Lines.{numbers_text, numbers_line, section};
ghost use Rattle.account_units.specs.Sections.{pairs_heading, chains_heading};
ghost use Rattle.account_units.specs.InTables.{pair_line, pair_lines_in, chain_in, chain_line, chain_lines_in};

// Pair number i.
fn put_pair(out: &mut [u8], at: usize, order: &[u8], next: &[u8], i: usize) -> usize
    ensures { Puts (pair_line order.now next.now i) out.old at out.new result }
{
    let left = rows::number_at(order, i);
    let right = rows::number_at(next, left);
    let pair = units::pack_of_two(left, right);
    crate::numbers::put_unit(out, at, pair)
}

fn put_pair_lines(out: &mut [u8], at: usize, order: &[u8], next: &[u8], count: usize) -> usize
    ensures { Puts (pair_lines_in order.now next.now count) out.old at out.new result }
{
    let mut behind = at;
    for i in 0..count {
        behind = put_pair(out, behind, order, next, i);
    }
    behind
}

pub fn put_pairs(out: &mut [u8], at: usize, order: &[u8], next: &[u8], count: usize) -> usize
    ensures { Puts (section pairs_heading (pair_lines_in order.now next.now count)) out.old at out.new result }
{
    crate::numbers::put_section(
        out,
        at,
        b"Admitted pairs, in order:\n",
        |out, start| put_pair_lines(out, start, order, next, count),
    )
}

// From s on, along at most `count` pairs.
fn put_along(out: &mut [u8], at: usize, next: &[u8], count: usize, s: usize) -> usize
    ensures { Puts (numbers_text (chain_in count next.now s)) out.old at out.new result }
{
    let mut behind = at;
    let mut statement = s;
    for _i in 0..count {
        behind = crate::numbers::put_number(out, behind, statement);
        statement = rows::number_at(next, statement);
        if statement == rows::NONE {
            return behind;
        }
    }
    crate::numbers::put_number(out, behind, statement)
}

fn put_chain(out: &mut [u8], at: usize, next: &[u8], count: usize, s: usize) -> usize
    ensures { Puts (numbers_line (chain_in count next.now s)) out.old at out.new result }
{
    let behind_space = text::put_words(out, at, b" ");
    let behind_numbers = put_along(out, behind_space, next, count, s);
    text::put_words(out, behind_numbers, b"\n")
}

// A longest chain begins at a statement that is right in no pair.
#[tactic(auto, using(text::proofs::Putting::nothing))]
fn put_chain_from(
    out: &mut [u8],
    at: usize,
    next: &[u8],
    rights: u64,
    count: usize,
    s: usize,
) -> usize
    ensures { Puts (chain_line next.now rights count s) out.old at out.new result }
{
    if rows::has(rights, s) || rows::number_at(next, s) == rows::NONE {
        return at;
    }
    put_chain(out, at, next, count, s)
}

fn put_chain_lines(
    out: &mut [u8],
    at: usize,
    next: &[u8],
    rights: u64,
    count: usize,
    n: usize,
) -> usize
    ensures { Puts (chain_lines_in next.now rights count n) out.old at out.new result }
{
    let mut behind = at;
    for s in 0..n {
        behind = put_chain_from(out, behind, next, rights, count, s);
    }
    behind
}

pub fn put_chains(
    out: &mut [u8],
    at: usize,
    next: &[u8],
    rights: u64,
    count: usize,
    n: usize,
) -> usize
    ensures { Puts (section chains_heading (chain_lines_in next.now rights count n)) out.old at out.new result }
{
    crate::numbers::put_section(
        out,
        at,
        b"Chains:\n",
        |out, start| put_chain_lines(out, start, next, rights, count, n),
    )
}
