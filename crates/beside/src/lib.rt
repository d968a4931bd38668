// A block and the list made for it, side by side on two copies of the contents: the comparison that is shown
// to a laboratory. That both end alike and that the list pays what was reported is proved in proofs/Shown.antt.

#![tactic(auto)]

mod same;

ghost use Rattle.std.specs.Prelude.{◌≡◌, get_or, take};
ghost use Rattle.memory.specs.Lent.{lent};
ghost use Rattle.run_block.specs.Answers.{answer as ran};
ghost use Rattle.beside.specs.Beside.{list_run, both_alike, side_by_side, answer};

use maker::Made;
use run_block::Ran;

// What comes back: three statuses, the size of the list, the price that was reported of it, what each run
// paid, and whether both ran and left the same cells and the same live-out variables.
#[derive(Clone, Copy)]
pub struct Beside {
    pub made: u8,
    pub block: u8,
    pub list: u8,
    pub size: usize,
    pub reported: u64,
    pub block_paid: usize,
    pub list_paid: usize,
    pub same: bool,
}

// A list that was not made is not run. Numbers and no `Result`s: `Beside` has the number of each of the three
// calls, so that each result would only be turned into its number again.
#[tactic(auto, using(crate::proofs::Running::not_run, crate::proofs::Running::made_run))]
fn run_made(bytes: &[u8], made: Made, room: &[u8], variables: &mut [u32], cells: &mut [u32]) -> Ran
    ensures { ran result (lent variables.new cells.new)
        ≡ list_run bytes.now made.status (take made.size room.now) (lent variables.old cells.old) }
{
    if made.status != 0 {
        return Ran {
            status: made.status,
            price: 0,
        };
    }
    let end = made.size.min(room.len());
    nephinor::run_list(bytes, &room[..end], variables, cells)
}

// Both ran, and ended alike.
fn both_alike(
    bytes: &[u8],
    block: Ran,
    list: Ran,
    block_variables: &[u32],
    block_cells: &[u32],
    list_variables: &[u32],
    list_cells: &[u32],
) -> bool
    ensures { result ≡ both_alike (get_or bytes.now 4 0) (ran block (lent block_variables.now block_cells.now))
        (ran list (lent list_variables.now list_cells.now)) }
{
    block.status == 0
        && list.status == 0
        && same::same_ends(
            bytes,
            block_variables,
            block_cells,
            list_variables,
            list_cells,
        )
}

// Makes the list, runs the block on one copy of the contents and the list on the other.
#[tactic(auto, using(crate::proofs::Running::together))]
pub fn side_by_side(
    bytes: &[u8],
    room: &mut [u8],
    block_variables: &mut [u32],
    block_cells: &mut [u32],
    list_variables: &mut [u32],
    list_cells: &mut [u32],
) -> Beside
    ensures { answer result room.new (lent block_variables.new block_cells.new)
        (lent list_variables.new list_cells.new)
        ≡ side_by_side bytes.now room.old (lent block_variables.old block_cells.old)
        (lent list_variables.old list_cells.old) }
{
    let made = nephinor::make_list(bytes, room);
    let block = nephinor::run_block(bytes, block_variables, block_cells);
    let list = run_made(bytes, made, room, list_variables, list_cells);
    let same = both_alike(
        bytes,
        block,
        list,
        block_variables,
        block_cells,
        list_variables,
        list_cells,
    );
    Beside {
        made: made.status,
        block: block.status,
        list: list.status,
        size: made.size,
        reported: made.list,
        block_paid: block.price,
        list_paid: list.price,
        same,
    }
}
