// "A pack fetches": a current register that holds the tuple, else L, C or G.

#![tactic(auto)]

ghost use Rattle.std.specs.Prelude.{◌≡◌, ◌≤◌};
ghost use Rattle.lanes.specs.Homes.{in_lanes};
ghost use Rattle.fetch.specs.Fetching.{no_emission, state, got, tuple_in_row, tuple_constant, load_tuple, fetch_state, fetch_right_state, tuple_in};

use encode::Written;
use facts::Tables;
use registers::Tuple;
use units::Unit;

// What has been emitted so far: the variables that stay in lanes, the registers and what they hold,
// the bytes written, how many registers are in use, and the statements whose writes are done.
//
// It has five kilobytes, and so it is lent and never passed on by value.
#[derive(Clone, Copy)]
pub struct Emission {
    pub homes: [u16; 257],
    pub registers: [u64; 576],
    pub written: Written,
    pub used: u8,
    pub done: u64,
}

impl Emission {
    // Nothing is emitted yet.
    pub fn empty() -> Emission
        ensures { result ≡ no_emission }
    {
        Emission {
            homes: [0; 257],
            registers: [0; 576],
            written: encode::nothing_written(),
            used: 0,
            done: 0,
        }
    }
}

// "ascending neighbours of one array"
pub fn are_in_row(tuple: Tuple) -> bool
    ensures { result ≡ tuple_in_row tuple }
{
    let lanes = tuple.lanes;
    codes::in_row(lanes[0], lanes[1])
        && (tuple.count == 2
            || (codes::in_row(lanes[1], lanes[2]) && codes::in_row(lanes[2], lanes[3])))
}

fn are_constants(tuple: Tuple) -> bool
    ensures { result ≡ tuple_constant tuple }
{
    let lanes = tuple.lanes;
    codes::is_constant(lanes[0])
        && codes::is_constant(lanes[1])
        && (tuple.count == 2 || (codes::is_constant(lanes[2]) && codes::is_constant(lanes[3])))
}

// "else L for ascending neighbours of one array, else C for constants, else G"
#[tactic(auto, unfolding(crate::specs::Fetching::load_tuple))]
fn load(out: &mut [u8], homes: &mut [u16], w: Written, r: u8, tuple: Tuple) -> Written
    ensures { in_lanes out.new homes.new result
        ≡ load_tuple tuple r (in_lanes out.old homes.old w) }
{
    let k = tuple.count;
    let lanes = tuple.lanes;
    if are_in_row(tuple) {
        return encode::write_cells(out, w, 1, r, k, lanes[0], 1);
    }
    if are_constants(tuple) {
        return encode_lanes::write_c(out, w, r, k, lanes);
    }
    let extracted = lanes::extract_each(out, homes, w, tuple);
    encode_lanes::write_g(out, extracted, r, k, lanes)
}

// Back comes the register that has the tuple.
#[tactic(auto, unfolding(crate::specs::Fetching::fetch_state))]
pub fn fetch(out: &mut [u8], emission: &mut Emission, tables: &Tables, tuple: Tuple) -> u8
    ensures { got (state out.new emission.new) result
        ≡ fetch_state tables.now.numbers tables.now.writers tuple (state out.old emission.old) }
{
    // There are no more than 96 registers.
    let there = emission.used.min(96);
    let held = registers::holder(&emission.registers, there, emission.done, tuple);
    if let Some(r) = held {
        return r;
    }
    let r = emission.used;
    emission.written = load(out, &mut emission.homes, emission.written, r, tuple);
    registers::hold(
        &mut emission.registers,
        usize::from(r),
        tables,
        tuple,
        emission.done,
    );
    emission.used = r.wrapping_add(1);
    r
}

// A copy has no right.
#[tactic(auto, unfolding(crate::specs::Fetching::fetch_right_state))]
pub fn fetch_right(
    out: &mut [u8],
    emission: &mut Emission,
    tables: &Tables,
    tuple: Tuple,
    operation: u8,
) -> u8
    ensures { got (state out.new emission.new) result
        ≡ fetch_right_state tables.now.numbers tables.now.writers tuple operation (state out.old emission.old) }
{
    if operation == 0 {
        return 0;
    }
    fetch(out, emission, tables, tuple)
}

pub fn tuple_at(tables: &Tables, column: usize, unit: Unit) -> Tuple
    requires { column ≤ 448 }
    ensures { result ≡ tuple_in tables.now.facts column unit }
{
    let lanes = unit.lanes.map(|s| tables.fact(column, usize::from(s)));
    Tuple {
        lanes,
        count: unit.count,
    }
}
