// Units: packs and single statements, by value and as words in tables.
//
// A word has a byte for each lane, NONE where there is none, and their count above these. Units that
// wait stand by their lowest statement number, and `needs` has for each of them what it waits for.

#![tactic(auto)]

ghost use Rattle.std.specs.Prelude.{◌≡◌, [], ◌∷◌, ◌<◌, get_or, set as replaced};
ghost use Rattle.units.specs.Lanes.{lanes_of, lanes_word, word_lanes, lowest_lane, member_lane, member_lanes, needed_lanes};

// "A unit is a pack or a single statement": its statements in the order of their lanes.
#[derive(Clone, Copy)]
pub struct Unit {
    pub lanes: [u8; 4],
    pub count: u8,
}

pub fn unit_at(units: &[u64], at: usize) -> Unit
    ensures { result ≡ word_lanes (get_or units.now at 0) }
{
    let [a, b, c, d, count, ..] = slices::at_or(units, at, 0).to_le_bytes();
    Unit {
        lanes: [a, b, c, d],
        count,
    }
}

pub fn set_unit(units: &mut [u64], at: usize, unit: Unit)
    ensures { units.new ≡ replaced units.old at (lanes_word unit) }
{
    let [a, b, c, d] = unit.lanes;
    let word = u64::from_le_bytes([a, b, c, d, unit.count, 0, 0, 0]);
    slices::put(units, at, word);
}

pub fn single(s: usize) -> Unit
    requires { s < 256 }
    ensures { result ≡ lanes_of (s ∷ []) }
{
    Unit {
        lanes: [s as u8, 64, 64, 64],
        count: 1,
    }
}

pub fn pack_of_two(s: usize, t: usize) -> Unit
    requires { (s < 256) × (t < 256) }
    ensures { result ≡ lanes_of (s ∷ t ∷ []) }
{
    Unit {
        lanes: [s as u8, t as u8, 64, 64],
        count: 2,
    }
}

// "A unit goes by its lowest statement number." A lane that is not there has a higher one.
fn lowest(unit: Unit) -> u8
    ensures { result ≡ lowest_lane unit }
{
    let [a, b, c, d] = unit.lanes;
    a.min(b).min(c).min(d)
}

// Lanes as a set: what is not there is not in it. The four lanes stand one by one, here and below: a
// fold of them is not proved without a file, and by `lanes.map` `needed` took half as long again.
fn member(lane: u8) -> u64
    ensures { result ≡ member_lane lane }
{
    if lane < 64 {
        rows::only(usize::from(lane))
    } else {
        0
    }
}

pub fn members(unit: Unit) -> u64
    ensures { result ≡ member_lanes unit }
{
    let [a, b, c, d] = unit.lanes;
    member(a) | member(b) | member(c) | member(d)
}

// What a unit's statements depend on.
fn needed(direct: &[u64], unit: Unit) -> u64
    ensures { result ≡ needed_lanes direct.now unit }
{
    let [a, b, c, d] = unit.lanes;
    let of = |lane: u8| slices::at_or(direct, usize::from(lane), 0);
    (of(a) | of(b)) | (of(c) | of(d))
}

// The unit waits from now on.
pub fn wait(direct: &[u64], units: &mut [u64], needs: &mut [u64], unit: Unit) -> u64
    ensures { (units.new ≡ replaced units.old (lowest_lane unit) (lanes_word unit))
        × ((needs.new ≡ replaced needs.old (lowest_lane unit) (needed_lanes direct.now unit))
        × (result ≡ member_lane (lowest_lane unit))) }
{
    let low = lowest(unit);
    set_unit(units, usize::from(low), unit);
    slices::put(needs, usize::from(low), needed(direct, unit));
    member(low)
}
