// The account of a block: how its list comes about, as text for the people who read it.

#![tactic(auto)]

ghost use Rattle.std.specs.Prelude.{◌≡◌, ◌≤◌, length, take};
ghost use Rattle.meaning.specs.Numbers.{done};
ghost use Rattle.meaning.specs.Block.{declared};
ghost use Rattle.meaning.specs.Format.{read_block};
ghost use Rattle.text.specs.Puts.{Puts};
ghost use Rattle.account_list.specs.Shown.{list_text};
ghost use Rattle.account.specs.Account.{answer_told, block_told, explained};

use meaning::Block;

mod prices;
mod sections;

// The list stands in the first bytes of the room.
fn put_list(out: &mut [u8], at: usize, block: Block, room: &[u8], size: usize) -> usize
    requires { size ≤ length room.now }
    ensures { Puts (list_text (declared block).statements (take size room.now)) out.old at out.new result }
{
    account_list::put_instructions(out, at, block, &room[..size])
}

// The list is made anew from the bytes, in a room that holds every list.
fn put_answer(out: &mut [u8], at: usize, block: Block, bytes: &[u8]) -> usize
    requires { read_block bytes.now ≡ done (declared block) }
    ensures { Puts (answer_told (declared block)) out.old at out.new result }
{
    let mut room = [0u8; 4096];
    let made = maker::make_list(bytes, &mut room);
    let behind_heading = text::put_words(
        out,
        at,
        b"Instructions of the answer, with the price of each:\n",
    );
    let behind_list = put_list(out, behind_heading, block, &room, made.size);
    prices::put_sums(out, behind_list, made.block, made.list)
}

fn put_block(out: &mut [u8], at: usize, block: Block, bytes: &[u8]) -> usize
    requires { read_block bytes.now ≡ done (declared block) }
    ensures { Puts (block_told (declared block)) out.old at out.new result }
{
    let behind_head = account_statements::put_head(out, at, block);
    let behind_statements = account_statements::put_statements(out, behind_head, block);
    let behind_units = sections::put_units(out, behind_statements, block);
    put_answer(out, behind_units, block, bytes)
}

// For all bytes: the account of the block that they are, or why they are none.
pub fn put_account(out: &mut [u8], bytes: &[u8]) -> usize
    ensures { Puts (explained bytes.now) out.old 0 out.new result }
{
    let read = reader::read_block(bytes);
    if read.status != 0 {
        return answers::put_refusal(out, 0, read.status);
    }
    put_block(out, 0, read.block, bytes)
}
