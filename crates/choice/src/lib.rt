// "Choice": S for every statement in block order, and which of the two lists is the answer.

#![tactic(auto)]

ghost use Rattle.std.specs.Prelude.{◌≡◌, ◌≤◌, length};
ghost use Rattle.meaning.specs.Block.{declared, block_price};
ghost use Rattle.meaning.specs.Choice.{packed_list, chosen_list};
ghost use Rattle.facts.specs.Tied.{Stated};
ghost use Rattle.encode.specs.Records.{listing};
ghost use Rattle.choice.specs.Promises.{Legal, Holds};
ghost use Rattle.choice.specs.Plain.{plain_in};

use encode::Written;
use facts::Tables;
use meaning::Block;

// "S for every statement in block order"
#[tactic(auto, unfolding(crate::specs::Plain::plain_records), using(basics::proofs::Counting::count_more))]
fn write_plain(out: &mut [u8], tables: &Tables, n: usize) -> Written
    requires { n ≤ 64 }
    ensures { listing out.new result ≡ plain_in tables.now.facts n out.old }
{
    let mut w = encode::nothing_written();
    for i in 0..n {
        w = encode::write_s(out, w, i as u8, tables.fact(facts::PRICE, i));
    }
    encode::write_header(out, w);
    w
}

// "This list is the answer if its price is below the block's".
pub fn choose(
    out: &mut [u8],
    tables: &Tables,
    block: Block,
    n: usize,
    packed: Written,
    price: u64,
) -> Written
    requires legal { Legal (declared block) }
    requires counted { n ≡ length (declared block).statements }
    requires stated { Stated (declared block).statements tables.now.facts }
    requires room { 200 ≤ length out.old }
    requires holds { Holds (declared block).statements (packed_list (declared block)) out.old packed.size packed.price }
    requires priced { price ≡ block_price (declared block).statements }
    ensures { Holds (declared block).statements (chosen_list (declared block)) out.new result.size result.price }
{
    if packed.price < price {
        return packed;
    }
    write_plain(out, tables, n)
}
