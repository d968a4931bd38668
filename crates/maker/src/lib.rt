// Making a list: the phases one after the other, the choice, and the answer in the lent room.

#![tactic(auto)]

ghost use Rattle.std.specs.Prelude.{◌≡◌, ◌≤◌, length};
ghost use Rattle.meaning.specs.Numbers.{done};
ghost use Rattle.meaning.specs.Block.{declared};
ghost use Rattle.meaning.specs.Choice.{packed_list};
ghost use Rattle.meaning.specs.Calls.{list_made, make_list_call};
ghost use Rattle.facts.specs.Filled.{no_tables};
ghost use Rattle.facts.specs.Tied.{Stated};
ghost use Rattle.choice.specs.Promises.{Legal, Holds};
ghost use Rattle.maker.specs.Promises.{answer, returned};

use encode::Written;
use facts::Tables;
use meaning::{Block, Refusal};

// What making a list returns: "list length, block price, list price", zeros beside a refusal. The public call promises
// these numbers, so they stay side by side; `make` answers by a Result.
#[derive(Clone, Copy)]
pub struct Made {
    pub status: u8,
    pub size: usize,
    pub block: u64,
    pub list: u64,
}

// A list that was made: its length in the room, and what the block and the list cost.
#[derive(Clone, Copy)]
pub struct List {
    pub size: usize,
    pub block_price: u64,
    pub list_price: u64,
}

// "zeros beside its number, except that 7 also returns the length needed"
impl From<Result<List, Refusal>> for Made {
    ghost from_gives = { λ outcome made. made ≡ returned outcome };

    fn from(outcome: Result<List, Refusal>) -> Made {
        match outcome {
            Ok(list) => Made {
                status: 0,
                size: list.size,
                block: list.block_price,
                list: list.list_price,
            },
            Err(refusal) => Made {
                status: refusal.number(),
                size: refusal.needed(),
                block: 0,
                list: 0,
            },
        }
    }
}

// The bytes of the packed list. The tables are filled from the block's statements.
#[tactic(auto, using(crate::proofs::Packing::slots_few, crate::proofs::Packing::slots_fit, crate::proofs::Packing::slots_stated))]
fn write_packed(block: Block, n: usize, tables: &mut Tables, out: &mut [u8]) -> Written
    requires counted { n ≡ length (declared block).statements }
    requires legal { Legal (declared block) }
    requires empty { tables.old ≡ no_tables }
    requires room { 4000 ≤ length out.old }
    ensures holds { Holds (declared block).statements (packed_list (declared block)) out.new result.size result.price }
    ensures stated { Stated (declared block).statements tables.new.facts }
{
    let statements = &block.statements[..n];
    let mut scheduled = [0u64; 64];
    phases::fill_tables(statements, tables);
    let count = phases::schedule_units(statements, tables, &mut scheduled);
    emit::emission(out, tables, &scheduled, count, block.live)
}

// "Making a list: block, then 7."
fn make_read(block: Block, room: &mut [u8]) -> Result<List, Refusal>
    requires { Legal (declared block) }
    ensures { answer (returned result) room.new ≡ list_made room.old (done (declared block)) }
{
    let n = run_block::at_most(block.count, 64);
    let mut tables = Tables::empty();
    let mut out = [0u8; 4096];
    // No From goes from usize to u64.
    let price = run_block::block_price(block) as u64;
    let packed = write_packed(block, n, &mut tables, &mut out);
    let w = choice::choose(&mut out, &tables, block, n, packed, price);
    let size = usize::from(w.size);
    if room.len() < size {
        return Err(Refusal::Room { needed: size });
    }
    room[..size].copy_from_slice(&out[..size]);
    Ok(List {
        size,
        block_price: price,
        list_price: w.price,
    })
}

#[tactic(auto, using(crate::proofs::Answers::stopped, crate::proofs::Answers::went_on))]
pub fn make(bytes: &[u8], room: &mut [u8]) -> Result<List, Refusal>
    ensures { answer (returned result) room.new ≡ make_list_call bytes.now room.old }
{
    let block = reader::parse_block(bytes)?;
    make_read(block, room)
}

// The same with the number that is returned.
pub fn make_list(bytes: &[u8], room: &mut [u8]) -> Made
    ensures { answer result room.new ≡ make_list_call bytes.now room.old }
{
    Made::from(make(bytes, room))
}
