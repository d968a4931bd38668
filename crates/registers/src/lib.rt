// The registers and what they hold, by value and in a table.
//
// The table has columns of 96: four lanes, their count, and what ends the register.

#![tactic(auto)]

ghost use Rattle.std.specs.Prelude.{◌≡◌, ◌<◌};
ghost use Rattle.registers.specs.Table.{register_at, set_register, is_current, holds_tuple, serves_at, holder_from, endings as endings_of, hold_tuple};

use facts::Tables;

// The operands of a unit at one position, or its destinations, by code; 0 where there is no lane.
#[derive(Clone, Copy, PartialEq, Eq)]
pub struct Tuple {
    pub lanes: [u64; 4],
    pub count: u8,
}

// "A register holds the tuple it was fetched from, or for O the destination tuple; it is current
// until a statement writes one of those places": `ends` are the statements still to come that do.
#[derive(Clone, Copy)]
pub struct Register {
    pub tuple: Tuple,
    pub ends: u64,
}

fn register_at(registers: &[u64], r: usize) -> Register
    requires { r < 256 }
    ensures { result ≡ register_at registers.now r }
{
    Register {
        tuple: Tuple {
            lanes: [
                slices::at_or(registers, r, 0),
                slices::at_or(registers, r + 96, 0),
                slices::at_or(registers, r + 192, 0),
                slices::at_or(registers, r + 288, 0),
            ],
            count: rows::low_byte(slices::at_or(registers, r + 384, 0)),
        },
        ends: slices::at_or(registers, r + 480, 0),
    }
}

fn set_register(registers: &mut [u64], r: usize, register: Register)
    requires { r < 256 }
    ensures { registers.new ≡ set_register registers.old r register }
{
    let tuple = register.tuple;
    slices::put(registers, r, tuple.lanes[0]);
    slices::put(registers, r + 96, tuple.lanes[1]);
    slices::put(registers, r + 192, tuple.lanes[2]);
    slices::put(registers, r + 288, tuple.lanes[3]);
    slices::put(registers, r + 384, u64::from(tuple.count));
    slices::put(registers, r + 480, register.ends);
}

// No statement that ends it is done.
fn is_current(register: Register, done: u64) -> bool
    ensures { result ≡ is_current register done }
{
    register.ends & done == 0
}

// "exactly this tuple"
fn holds(register: Register, tuple: Tuple) -> bool
    ensures { result ≡ holds_tuple register tuple }
{
    register.tuple == tuple
}

// "a current register that holds exactly this tuple"
fn serves(registers: &[u64], r: usize, tuple: Tuple, done: u64) -> bool
    requires { r < 256 }
    ensures { result ≡ serves_at registers.now r tuple done }
{
    // most registers differ in the first lane already
    if slices::at_or(registers, r, 0) != tuple.lanes[0] {
        return false;
    }
    let register = register_at(registers, r);
    is_current(register, done) && holds(register, tuple)
}

// The first of so many registers that does.
#[tactic(auto, using(crate::proofs::Searching::found_here, crate::proofs::Searching::found_behind, crate::proofs::Searching::found_nowhere))]
pub fn holder(registers: &[u64], count: u8, done: u64, tuple: Tuple) -> Option<u8>
    ensures { result ≡ holder_from count 0 registers.now done tuple }
{
    for r in 0..count {
        if serves(registers, usize::from(r), tuple, done) {
            return Some(r);
        }
    }
    None
}

// The statements not yet done that write one of the tuple's places.
fn endings(tables: &Tables, tuple: Tuple, done: u64) -> u64
    ensures { result ≡ endings_of tables.now.numbers tables.now.writers tuple done }
{
    // two and two, as `writers_of` joins them; a fold would join them in another order
    let first = tables.writing(tuple.lanes[0]) | tables.writing(tuple.lanes[1]);
    let second = tables.writing(tuple.lanes[2]) | tables.writing(tuple.lanes[3]);
    let all = first | second;
    all ^ (all & done)
}

// A new register that holds the tuple.
pub fn hold(registers: &mut [u64], r: usize, tables: &Tables, tuple: Tuple, done: u64)
    requires { r < 256 }
    ensures { registers.new ≡ hold_tuple tables.now.numbers tables.now.writers tuple done r registers.old }
{
    let ends = endings(tables, tuple, done);
    set_register(registers, r, Register { tuple, ends });
}
