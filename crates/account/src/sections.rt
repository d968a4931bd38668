// How the units of a block come about: pairs, chains, packs, schedule, dissolved packs, and the choice.

ghost use Rattle.std.specs.Prelude.{◌++◌};
ghost use Rattle.meaning.specs.Block.{declared};
ghost use Rattle.text.specs.Puts.{Puts};
ghost use Rattle.choice.specs.Promises.{Legal};
ghost use Rattle.account.specs.Account.{pairing_told, packing_told, choice_told};
ghost use Rattle.account.specs.InTables.{pairing_in, packing_in};

use crate::prices;
use course::Found;
use meaning::Block;

fn put_pairing(
    out: &mut [u8],
    at: usize,
    order: &[u8],
    next: &[u8],
    found: Found,
    n: usize,
) -> usize
    ensures { Puts (pairing_in order.now next.now found n) out.old at out.new result }
{
    let behind = account_units::put_pairs(out, at, order, next, found.pairs);
    account_units::put_chains(out, behind, next, found.rights, found.pairs, n)
}

fn put_packing(out: &mut [u8], at: usize, packs: &[u64], scheduled: &[u64], found: Found) -> usize
    ensures { Puts (packing_in packs.now scheduled.now found) out.old at out.new result }
{
    let behind_packs = account_units::put_packs(out, at, packs, found.waiting);
    let behind_schedule = account_units::put_schedule(out, behind_packs, scheduled, found.units);
    account_units::put_dissolved(
        out,
        behind_schedule,
        packs,
        found.waiting,
        scheduled,
        found.units,
    )
}

pub fn put_units(out: &mut [u8], at: usize, block: Block) -> usize
    requires { Legal (declared block) }
    ensures { Puts (pairing_told (declared block).statements ++ packing_told (declared block).statements ++ choice_told (declared block)) out.old at out.new result }
{
    let n = run_block::at_most(block.count, 64);
    let price = run_block::block_price(block) as u64;
    let mut order = [64u8; 64];
    let mut next = [64u8; 64];
    let mut packs = [0u64; 64];
    let mut scheduled = [0u64; 64];
    let followed = course::follow(block, &mut order, &mut next, &mut packs, &mut scheduled);
    let found = followed.found;
    let behind_pairing = put_pairing(out, at, &order, &next, found, n);
    let behind_packing = put_packing(out, behind_pairing, &packs, &scheduled, found);
    prices::put_choice(out, behind_packing, price, followed.price)
}
