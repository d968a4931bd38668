// How the list of a block comes about: the phases one after the other, with the tables that each
// leaves for the next lent out, so that they can be shown.

#![tactic(auto)]

ghost use Rattle.std.specs.Prelude.{◌≡◌, length, replicate};
ghost use Rattle.meaning.specs.Block.{declared};
ghost use Rattle.meaning.specs.List.{list_price};
ghost use Rattle.meaning.specs.Choice.{packed_list};
ghost use Rattle.choice.specs.Promises.{Legal};
ghost use Rattle.phases.specs.Prepared.{TablesPrepared};
ghost use Rattle.course.specs.Course.{Follows};

use facts::Tables;
use meaning::{Block, Statement};

// What the tables do not say themselves: how many pairs were admitted and who is right in one, by
// which numbers units wait, how many units were scheduled.
#[derive(Clone, Copy)]
pub struct Found {
    pub pairs: usize,
    pub rights: u64,
    pub waiting: u64,
    pub units: usize,
}

// That, and the price of the packed list.
#[derive(Clone, Copy)]
pub struct Followed {
    pub found: Found,
    pub price: u64,
}

// The admitted pairs, the units that wait, and the units in order. The schedule dissolves packs in
// tables of its own, so that those of combination stay as they were.
#[tactic(auto, using(phases::proofs::Scheduled::tables_priced))]
fn find_units(
    statements: &[Statement],
    tables: &Tables,
    order: &mut [u8],
    next: &mut [u8],
    packs: &mut [u64],
    scheduled: &mut [u64],
) -> Found
    requires prepared { TablesPrepared statements.now tables.now }
    requires room_for_order { length order.old ≡ 64 }
    requires room_for_next { length next.old ≡ 64 }
    requires no_packs { packs.old ≡ replicate 64 0 }
    requires none_scheduled { scheduled.old ≡ replicate 64 0 }
    ensures { Follows statements.now order.new next.new packs.new scheduled.new result }
{
    let n = statements.len();
    let direct = reach::dependences(statements, tables);
    let reached = reach::reachability(&direct, n);
    let admitted = phases::pair_up(statements, tables, reached);
    let mut needs = [0u64; 64];
    let waiting = combine::combine(
        n,
        reached,
        &direct,
        &admitted.next,
        admitted.rights,
        packs,
        &mut needs,
    );
    let units = phases::order_units(n, reached, &direct, &admitted, scheduled);
    order.copy_from_slice(&admitted.order);
    next.copy_from_slice(&admitted.next);
    Found {
        pairs: admitted.count,
        rights: admitted.rights,
        waiting,
        units,
    }
}

// All phases of a block that was read, with the price that the packed list has.
#[tactic(auto, using(maker::proofs::Packing::slots_few))]
pub fn follow(
    block: Block,
    order: &mut [u8],
    next: &mut [u8],
    packs: &mut [u64],
    scheduled: &mut [u64],
) -> Followed
    requires legal { Legal (declared block) }
    requires fresh { (order.old ≡ replicate 64 64) × ((next.old ≡ replicate 64 64) × ((packs.old ≡ replicate 64 0) × (scheduled.old ≡ replicate 64 0))) }
    ensures follows { Follows (declared block).statements order.new next.new packs.new scheduled.new result.found }
    ensures price_value { result.price ≡ list_price (declared block).statements (packed_list (declared block)) }
{
    let n = run_block::at_most(block.count, 64);
    let statements = &block.statements[..n];
    let mut tables = Tables::empty();
    phases::fill_tables(statements, &mut tables);
    let found = find_units(statements, &tables, order, next, packs, scheduled);
    let mut out = [0u8; 4096];
    let packed = emit::emission(&mut out, &tables, scheduled, found.units, block.live);
    Followed {
        found,
        price: packed.price,
    }
}
