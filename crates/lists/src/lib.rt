// What is asked of a whole list: the bytes at fault (8), and what it names against the rules beside its
// block (9).

#![tactic(auto)]

ghost use Rattle.std.specs.Prelude.{◌≡◌, [], drop};
ghost use Rattle.meaning.specs.Block.{declared};
ghost use Rattle.meaning.specs.List.{read_records, read_list};
ghost use Rattle.meaning.specs.Refusals.{answered};
ghost use Rattle.lists.specs.Whole.{is_some, header_fits, allowed_of, list_checked};

use meaning::{Block, Refusal};

// "under 4, version, length, over 160"
fn header_fits(bytes: &[u8]) -> bool
    ensures { result ≡ header_fits bytes.now }
{
    bytes.len() >= 4
        && bytes[0] == 1
        && usize::from(u16::from_be_bytes([bytes[1], bytes[2]])) == bytes.len()
        && bytes[3] <= 160
}

// So many records, and no byte behind them.
#[tactic(auto, using(crate::proofs::Turns::read_more, crate::proofs::Turns::read_stop, crate::proofs::Turns::read_end, crate::proofs::Turns::some_read, crate::proofs::Turns::no_read))]
fn records_read(bytes: &[u8], count: usize) -> bool
    ensures { result ≡ is_some (read_records count (drop 4 bytes.now)) }
{
    let mut start = 4;
    for _record in 0..count {
        let next = instructions::next_instruction(bytes, start);
        if next.instruction.is_none() {
            return false;
        }
        start = next.end;
    }
    bytes.len() <= start
}

// All of 8, over the whole list.
#[tactic(auto, using(crate::proofs::Header::header_read, crate::proofs::Header::header_broken))]
pub fn is_list(bytes: &[u8]) -> bool
    ensures { result ≡ is_some (read_list bytes.now) }
{
    header_fits(bytes) && records_read(bytes, usize::from(bytes[3]))
}

// The records, each against the rules. `written` has the lanes of each register so far; no list that is
// allowed writes more than 96.
#[tactic(auto, using(crate::proofs::Turns::allowed_stop, crate::proofs::Turns::allowed_end))]
fn records_allowed(bytes: &[u8], count: usize, block: Block) -> bool
    ensures { result ≡ allowed_of (declared block) [] (read_records count (drop 4 bytes.now)) }
{
    let statements = run_block::at_most(block.count, 64);
    let mut written = [0u8; 97];
    let mut n = 0;
    let mut start = 4;
    for _record in 0..count {
        let next = instructions::next_instruction(bytes, start);
        let Some(instruction) = next.instruction else {
            return false;
        };
        if !rules::obeys(
            instruction,
            &written[..n],
            statements,
            block.variables,
            block.arrays,
            &block.lengths,
        ) {
            return false;
        }
        written[n] = rules::lanes_written(instruction);
        n += rules::registers_written(instruction);
        start = next.end;
    }
    start >= bytes.len()
}

// 9, for a list that reads.
#[tactic(auto, using(crate::proofs::Header::header_read, crate::proofs::Header::header_broken))]
pub fn is_allowed(bytes: &[u8], block: Block) -> bool
    ensures { result ≡ allowed_of (declared block) [] (read_list bytes.now) }
{
    header_fits(bytes) && records_allowed(bytes, usize::from(bytes[3]), block)
}

// "for a list, all of 8, then 9"
#[tactic(auto, using(crate::proofs::Checked::unread, crate::proofs::Checked::forbidden, crate::proofs::Checked::passed))]
pub fn check_list(bytes: &[u8], block: Block) -> Result<(), Refusal>
    ensures { answered result ≡ list_checked (declared block) bytes.now }
{
    if !is_list(bytes) {
        return Err(Refusal::List);
    }
    if !is_allowed(bytes, block) {
        return Err(Refusal::Rules);
    }
    Ok(())
}
