// The comparison that is shown to a laboratory, as text: a block and starting contents are read, the block and
// the list made for it are run, and both are printed side by side. That no line is marked is proved in
// proofs/NoMark.antt.

#![tactic(auto)]

mod input;
mod refusals;
mod runs;

ghost use Rattle.std.specs.Prelude.{◌≡◌};
ghost use Rattle.meaning.specs.Numbers.{done};
ghost use Rattle.meaning.specs.Block.{declared};
ghost use Rattle.meaning.specs.Format.{read_block};
ghost use Rattle.text.specs.Puts.{Puts};
ghost use Rattle.comparison.specs.Compared.{answer_text, compared};

use meaning::Block;

// A block that reads, and the bytes behind it.
fn put_read(out: &mut [u8], block: Block, bytes: &[u8], rest: &[u8]) -> usize
    requires { read_block bytes.now ≡ done (declared block) }
    ensures { Puts (answer_text bytes.now rest.now 0 (done (declared block))) out.old 0 out.new result }
{
    let arrays = run_block::at_most(block.arrays, 8);
    runs::put_sized(
        out,
        &block.lengths[..arrays],
        block.variables,
        block.live,
        bytes,
        rest,
    )
}

// All that is printed for the input.
pub fn put_comparison(out: &mut [u8], given: &[u8]) -> usize
    ensures { Puts (compared given.now) out.old 0 out.new result }
{
    if given.len() > 9303 {
        return refusals::put_too_long(out);
    }
    let end = input::block_end(given);
    let read = reader::read_block(&given[..end]);
    if read.status != 0 {
        return refusals::put_refusal(out, read.status, given.len());
    }
    put_read(out, read.block, &given[..end], &given[end..])
}
