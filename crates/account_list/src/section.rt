// The section of a list: a line for each record, from the list's bytes and its block.

ghost use Rattle.std.specs.Prelude.{◌≡◌};
ghost use Rattle.meaning.specs.Block.{declared, blank};
ghost use Rattle.instructions.specs.Meant.{read_meant};
ghost use Rattle.rules.specs.Price.{price_of};
ghost use Rattle.text.specs.Puts.{Puts};
ghost use Rattle.account_list.specs.Instructions.{priced_line};
ghost use Rattle.account_list.specs.Shown.{shown, line_meant, lines_from, list_text};

use crate::instruction;
use instructions::Instruction;
use meaning::{Block, Operand, Place, Statement};

// What stands where no statement is declared.
fn no_statement() -> Statement
    ensures { result ≡ blank }
{
    Statement {
        operation: 0,
        destination: Place::Variable(0),
        left: Operand::Nothing,
        right: Operand::Nothing,
    }
}

// An instruction and its price, as a line of the section.
// `as`: no `From` leads from usize to u64.
fn put_line(out: &mut [u8], at: usize, instruction: Instruction, statement: Statement) -> usize
    ensures { Puts (priced_line (shown instruction statement) (price_of instruction statement)) out.old at out.new result }
{
    let price = rules::instruction_price(instruction, statement);
    let behind_margin = text::put_words(out, at, b"  ");
    let behind_instruction = instruction::put_instruction(
        out,
        behind_margin,
        instruction,
        statement,
    );
    let behind_word = text::put_words(out, behind_instruction, b" (price ");
    let behind_price = text::put_decimal(out, behind_word, price as u64);
    text::put_words(out, behind_price, b")\n")
}

// What a record was read as, beside the declared statements, as a line of the section.
fn put_record(
    out: &mut [u8],
    at: usize,
    statements: &[Statement],
    read: Option<Instruction>,
) -> usize
    ensures { Puts (line_meant statements.now (read_meant read)) out.old at out.new result }
{
    let Some(instruction) = read else {
        return text::put_words(out, at, b"  broken (price 0)\n");
    };
    let number = usize::from(instructions::statement_number(instruction));
    let statement = slices::at_or(statements, number, no_statement());
    put_line(out, at, instruction, statement)
}

// So many records, which begin behind the fourth byte.
fn put_records(out: &mut [u8], at: usize, block: Block, list: &[u8], count: usize) -> usize
    ensures { Puts (lines_from (declared block).statements list.now count 4) out.old at out.new result }
{
    let statements = &block.statements[..run_block::at_most(block.count, 64)];
    let mut behind = at;
    let mut start = 4;
    for _record in 0..count {
        let next = instructions::next_instruction(list, start);
        behind = put_record(out, behind, statements, next.instruction);
        start = next.end;
    }
    behind
}

// All of a list's lines, or that there is none.
pub fn put_instructions(out: &mut [u8], at: usize, block: Block, list: &[u8]) -> usize
    ensures { Puts (list_text (declared block).statements list.now) out.old at out.new result }
{
    let count = slices::at_or(list, 3, 0);
    if count == 0 {
        return text::put_words(out, at, b"  none\n");
    }
    put_records(out, at, block, list, usize::from(count))
}
