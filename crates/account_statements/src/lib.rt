// The first two sections of a block's account: what the block declares, and its statements, each with
// its number and its price.

#![tactic(auto)]

ghost use Rattle.std.specs.Prelude.{min};
ghost use Rattle.meaning.specs.Block.{declared};
ghost use Rattle.text.specs.Puts.{Puts};
ghost use Rattle.account_statements.specs.Statements.{variables_text, counts_text, head_line, statement_line, numbered_lines, lines_or_none, statement_lines};

use meaning::{Block, Statement};

fn put_variables(out: &mut [u8], at: usize, variables: u8, live: u8) -> usize
    ensures { Puts (variables_text variables live) out.old at out.new result }
{
    let behind_head = text::put_words(out, at, b"Block: variables ");
    let behind_variables = text::put_decimal(out, behind_head, u64::from(variables));
    let behind_words = text::put_words(out, behind_variables, b", live out ");
    let behind_live = text::put_decimal(out, behind_words, u64::from(live));
    text::put_words(out, behind_live, b", arrays ")
}

// The arrays and statements that are declared: of each no more than there are slots.
fn put_counts(out: &mut [u8], at: usize, arrays: u8, count: u8) -> usize
    ensures { Puts (counts_text (min arrays 8) (min count 64)) out.old at out.new result }
{
    let declared = run_block::at_most(arrays, 8);
    let behind_arrays = text::put_decimal(out, at, declared as u64);
    let behind_words = text::put_words(out, behind_arrays, b", statements ");
    let statements = run_block::at_most(count, 64);
    let behind_statements = text::put_decimal(out, behind_words, statements as u64);
    text::put_words(out, behind_statements, b".\n")
}

pub fn put_head(out: &mut [u8], at: usize, block: Block) -> usize
    ensures { Puts (head_line (declared block)) out.old at out.new result }
{
    let behind = put_variables(out, at, block.variables, block.live);
    put_counts(out, behind, block.arrays, block.count)
}

fn put_line(out: &mut [u8], at: usize, number: usize, s: Statement) -> usize
    ensures { Puts (statement_line number s) out.old at out.new result }
{
    let price = run_block::statement_price(s);
    let behind_spaces = text::put_words(out, at, b"  ");
    let behind_number = text::put_decimal(out, behind_spaces, number as u64);
    let behind_colon = text::put_words(out, behind_number, b": ");
    let behind_statement = named::put_statement(out, behind_colon, s);
    let behind_words = text::put_words(out, behind_statement, b" (price ");
    let behind_price = text::put_decimal(out, behind_words, price as u64);
    text::put_words(out, behind_price, b")\n")
}

fn put_numbered(out: &mut [u8], at: usize, block: Block) -> usize
    ensures { Puts (numbered_lines 0 (declared block).statements) out.old at out.new result }
{
    let n = run_block::at_most(block.count, 64);
    let mut behind = at;
    for (i, s) in block.statements[..n].iter().enumerate() {
        behind = put_line(out, behind, i, *s);
    }
    behind
}

fn put_lines(out: &mut [u8], at: usize, block: Block) -> usize
    ensures { Puts (lines_or_none (declared block).statements) out.old at out.new result }
{
    if block.count == 0 {
        return text::put_words(out, at, b"  none\n");
    }
    put_numbered(out, at, block)
}

pub fn put_statements(out: &mut [u8], at: usize, block: Block) -> usize
    ensures { Puts (statement_lines (declared block).statements) out.old at out.new result }
{
    let behind = text::put_words(out, at, b"Statements, with the price of each:\n");
    put_lines(out, behind, block)
}
