// The variables that stay in lanes, and their extraction.
//
// `homes` has for each variable, by half its code, one more than four times its register plus its
// lane, or 0 where it is in memory.

#![tactic(auto)]

ghost use Rattle.std.specs.Prelude.{◌≡◌};
ghost use Rattle.lanes.specs.Homes.{in_lanes, home_at, set_home, land_tuple, extract_code, extract_tuple, extract_live};

use encode::Written;
use registers::Tuple;

fn home(homes: &[u16], code: u64) -> u16
    ensures { result ≡ home_at homes.now code }
{
    slices::at_or(homes, (code / 2) as usize, 0)
}

// Nothing has the code 0, and no home.
pub fn set_home(homes: &mut [u16], code: u64, value: u16)
    ensures { homes.new ≡ set_home homes.old code value }
{
    let place = (code / 2) as usize;
    if 0 < place {
        slices::put(homes, place, value);
    }
}

// "A variable written by a pack stays in its lane." The lowest lane that has it counts.
pub fn land(homes: &mut [u16], tuple: Tuple, r: u8)
    ensures { homes.new ≡ land_tuple tuple r homes.old }
{
    let first = 4 * u16::from(r) + 1;
    set_home(homes, tuple.lanes[3], first + 3);
    set_home(homes, tuple.lanes[2], first + 2);
    set_home(homes, tuple.lanes[1], first + 1);
    set_home(homes, tuple.lanes[0], first);
}

// "X then comes before that instruction, once per value"
#[tactic(auto, unfolding(crate::specs::Homes::extract_code))]
pub fn extract(out: &mut [u8], homes: &mut [u16], w: Written, code: u64) -> Written
    ensures { in_lanes out.new homes.new result
        ≡ extract_code code (in_lanes out.old homes.old w) }
{
    let found = home(homes, code);
    if found == 0 {
        return w;
    }
    set_home(homes, code, 0);
    let lane = u64::from(found - 1);
    encode::write_x(
        out,
        w,
        rows::low_byte(lane / 4),
        (lane % 4) as u8,
        codes::variable_of(code),
    )
}

// "in operand order"
pub fn extract_each(out: &mut [u8], homes: &mut [u16], w: Written, tuple: Tuple) -> Written
    ensures { in_lanes out.new homes.new result
        ≡ extract_tuple tuple (in_lanes out.old homes.old w) }
{
    let mut written = w;
    for code in tuple.lanes {
        written = extract(out, homes, written, code);
    }
    written
}

// "At the end, X for each live-out variable still in a lane, ascending."
#[tactic(auto, unfolding(crate::specs::Homes::extract_live), using(basics::proofs::Counting::count_more))]
pub fn extract_live(out: &mut [u8], homes: &mut [u16], from: Written, live: u8) -> Written
    ensures { in_lanes out.new homes.new result
        ≡ extract_live live (in_lanes out.old homes.old from) }
{
    let mut w = from;
    for v in 0..live {
        w = extract(out, homes, w, 2 + 2 * u64::from(v));
    }
    w
}
