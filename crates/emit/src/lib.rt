// "Emission": the instructions of each unit, and the extraction at the end.

#![tactic(auto)]

ghost use Rattle.std.specs.Prelude.{◌≡◌};
ghost use Rattle.encode.specs.Records.{listing};
ghost use Rattle.fetch.specs.Fetching.{state};
ghost use Rattle.emit.specs.Emitting.{emit_single_state, store_code, store_tuple, operation_in, operated_state, emit_pack_state, emit_unit_state, emit_units_state, emission_in};

use encode::Written;
use facts::Tables;
use fetch::Emission;
use registers::Tuple;
use units::Unit;

// "A single emits S."
#[tactic(auto, unfolding(crate::specs::Emitting::emit_single_state))]
fn emit_single(out: &mut [u8], emission: &mut Emission, tables: &Tables, unit: Unit)
    ensures { state out.new emission.new
        ≡ emit_single_state tables.now.facts unit (state out.old emission.old) }
{
    let s = usize::from(unit.lanes[0]);
    let left = tables.fact(facts::LEFT, s);
    let right = tables.fact(facts::RIGHT, s);
    let price = tables.fact(facts::PRICE, s);
    let first = lanes::extract(out, &mut emission.homes, emission.written, left);
    let second = lanes::extract(out, &mut emission.homes, first, right);
    emission.written = encode::write_s(out, second, unit.lanes[0], price);
    lanes::set_home(&mut emission.homes, tables.fact(facts::DESTINATION, s), 0);
    emission.done |= units::members(unit);
}

// "D per lane for other cells, nothing for variables"
fn store_lane(out: &mut [u8], w: Written, r: u8, lane: u8, code: u64) -> Written
    ensures { listing out.new result ≡ store_code r lane code (listing out.old w) }
{
    if codes::is_cell(code) {
        return encode::write_cells(out, w, 6, r, lane, code, 2);
    }
    w
}

// "Then the destination: W if neighbours, D per lane for other cells, nothing for variables."
#[tactic(auto, unfolding(crate::specs::Emitting::store_tuple))]
fn store(out: &mut [u8], w: Written, r: u8, tuple: Tuple) -> Written
    ensures { listing out.new result ≡ store_tuple r tuple (listing out.old w) }
{
    if fetch::are_in_row(tuple) {
        return encode::write_cells(out, w, 5, r, tuple.count, tuple.lanes[0], 1);
    }
    let mut written = w;
    for lane in 0..4 {
        written = store_lane(out, written, r, lane, tuple.lanes[usize::from(lane)]);
    }
    written
}

// "The statements of a pack have one operation", which the sort has above the kind of destination.
fn operation_of(tables: &Tables, unit: Unit) -> u8
    ensures { result ≡ operation_in tables.now.facts unit }
{
    rows::low_byte(tables.fact(facts::SORT, usize::from(unit.lanes[0])) / 2)
}

// "A pack fetches left, then right .. Then O." The register of O is the next one.
#[tactic(auto, unfolding(crate::specs::Emitting::operated_state))]
fn operated(out: &mut [u8], emission: &mut Emission, tables: &Tables, unit: Unit)
    ensures { state out.new emission.new
        ≡ operated_state tables.now.facts tables.now.numbers tables.now.writers unit (state out.old emission.old) }
{
    let operation = operation_of(tables, unit);
    let tuple = fetch::tuple_at(tables, facts::LEFT, unit);
    let left = fetch::fetch(out, emission, tables, tuple);
    let other = fetch::tuple_at(tables, facts::RIGHT, unit);
    let right = fetch::fetch_right(out, emission, tables, other, operation);
    emission.written = encode::write_o(
        out,
        emission.written,
        emission.used,
        operation,
        unit.count,
        left,
        right,
    );
}

// "Then the destination."
#[tactic(auto, unfolding(crate::specs::Emitting::emit_pack_state))]
fn emit_pack(out: &mut [u8], emission: &mut Emission, tables: &Tables, unit: Unit)
    ensures { state out.new emission.new
        ≡ emit_pack_state tables.now.facts tables.now.numbers tables.now.writers unit (state out.old emission.old) }
{
    operated(out, emission, tables, unit);
    let r = emission.used;
    let tuple = fetch::tuple_at(tables, facts::DESTINATION, unit);
    emission.written = store(out, emission.written, r, tuple);
    let done = emission.done | units::members(unit);
    registers::hold(&mut emission.registers, usize::from(r), tables, tuple, done);
    lanes::land(&mut emission.homes, tuple, r);
    emission.used = r.wrapping_add(1);
    emission.done = done;
}

#[tactic(auto, unfolding(crate::specs::Emitting::emit_unit_state))]
fn emit_unit(out: &mut [u8], emission: &mut Emission, tables: &Tables, unit: Unit)
    ensures { state out.new emission.new
        ≡ emit_unit_state tables.now.facts tables.now.numbers tables.now.writers unit (state out.old emission.old) }
{
    if unit.count < 2 {
        emit_single(out, emission, tables, unit);
    } else {
        emit_pack(out, emission, tables, unit);
    }
}

#[tactic(auto, unfolding(crate::specs::Emitting::emit_units_state), using(basics::proofs::Counting::count_more))]
fn emit_units(out: &mut [u8], emission: &mut Emission, tables: &Tables, order: &[u64], count: usize)
    ensures { state out.new emission.new
        ≡ emit_units_state tables.now.facts tables.now.numbers tables.now.writers order.now count (state out.old emission.old) }
{
    for i in 0..count {
        emit_unit(out, emission, tables, units::unit_at(order, i));
    }
}

#[tactic(auto, unfolding(crate::specs::Emitting::emission_in))]
pub fn emission(out: &mut [u8], tables: &Tables, order: &[u64], count: usize, live: u8) -> Written
    ensures { listing out.new result
        ≡ emission_in tables.now.facts tables.now.numbers tables.now.writers order.now count live out.old }
{
    let mut emission = Emission::empty();
    emit_units(out, &mut emission, tables, order, count);
    let written = emission.written;
    let all = lanes::extract_live(out, &mut emission.homes, written, live);
    encode::write_header(out, all);
    all
}
