// "Combination": chains of pairs, cut into units.

#![tactic(auto)]

ghost use Rattle.std.specs.Prelude.{◌≡◌, ◌≤◌, ◌<◌};
ghost use Rattle.units.specs.Lanes.{lanes_of};
ghost use Rattle.combine.specs.Cutting.{tables, four_apart, next_unit, last_lane, cut_along, cut_from, combined};

use units::Unit;

// "pairwise independent", of four
fn pairwise(reached: &[u64], a: usize, b: usize, c: usize, d: usize) -> bool
    ensures { result ≡ four_apart reached.now a b c d }
{
    reach::independent(reached, a, b)
        && reach::independent(reached, a, c)
        && reach::independent(reached, a, d)
        && reach::independent(reached, b, c)
        && reach::independent(reached, b, d)
        && reach::independent(reached, c, d)
}

// "the next four statements if at least four remain and these are pairwise independent, else the
// next two if at least two remain, else one single"
#[tactic(auto, unfolding(crate::specs::Cutting::next_unit))]
fn next_unit(reached: &[u64], next: &[u8], a: usize) -> Unit
    requires { a < 256 }
    ensures { result ≡ lanes_of (next_unit reached.now next.now a) }
{
    let b = rows::number_at(next, a);
    if b == rows::NONE {
        return units::single(a);
    }
    let c = rows::number_at(next, b);
    let d = rows::number_at(next, c);
    if d == rows::NONE {
        return units::pack_of_two(a, b);
    }
    if pairwise(reached, a, b, c, d) {
        return Unit {
            lanes: [a as u8, b as u8, c as u8, d as u8],
            count: 4,
        };
    }
    units::pack_of_two(a, b)
}

fn last_lane(unit: Unit) -> usize
    ensures { result ≡ last_lane unit }
{
    let last = match unit.count {
        4 => 3,
        2 => 1,
        _ => 0,
    };
    usize::from(unit.lanes[last])
}

// "A chain is cut from its left end." Back comes the set of all units so far, by lowest number.
fn cut(
    n: usize,
    reached: &[u64],
    direct: &[u64],
    next: &[u8],
    start: usize,
    units: &mut [u64],
    needs: &mut [u64],
    before: u64,
) -> u64
    requires { start < 256 }
    ensures { tables units.new needs.new result
        ≡ cut_along n reached.now direct.now next.now start (tables units.old needs.old before) }
{
    let mut waiting = before;
    let mut at = start;
    for _ in 0..n {
        if at == rows::NONE {
            break;
        }
        let unit = next_unit(reached, next, at);
        waiting = waiting | units::wait(direct, units, needs, unit);
        at = rows::number_at(next, last_lane(unit));
    }
    waiting
}

// A longest chain begins at a statement that is right in no pair.
fn cut_from(
    n: usize,
    reached: &[u64],
    direct: &[u64],
    next: &[u8],
    rights: u64,
    s: usize,
    units: &mut [u64],
    needs: &mut [u64],
    before: u64,
) -> u64
    requires { s < 256 }
    ensures { tables units.new needs.new result
        ≡ cut_from n reached.now direct.now next.now rights s (tables units.old needs.old before) }
{
    if rows::has(rights, s) {
        return before;
    }
    cut(n, reached, direct, next, s, units, needs, before)
}

pub fn combine(
    n: usize,
    reached: [u64; 64],
    direct: &[u64],
    next: &[u8],
    rights: u64,
    units: &mut [u64],
    needs: &mut [u64],
) -> u64
    requires { n ≤ 64 }
    ensures { tables units.new needs.new result
        ≡ combined n reached direct.now next.now rights (tables units.old needs.old 0) }
{
    let mut waiting: u64 = 0;
    for s in 0..n {
        waiting = cut_from(n, &reached, direct, next, rights, s, units, needs, waiting);
    }
    waiting
}
