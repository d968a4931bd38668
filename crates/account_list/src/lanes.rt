// What stands in an instruction: registers, lanes, cells in a row, and constants or operands in four slots.

ghost use Rattle.std.specs.Prelude.{◌++◌};
ghost use Rattle.text.specs.Text.{words, decimal};
ghost use Rattle.text.specs.Puts.{Puts};
ghost use Rattle.named.specs.Names.{cell_text, operand_text};
ghost use Rattle.account_list.specs.Instructions.{register_text, lane_text, row_text};
ghost use Rattle.account_list.specs.Shown.{slot_text, slots_text};

use meaning::Operand;

pub fn put_register(out: &mut [u8], at: usize, r: u8) -> usize
    ensures { Puts (register_text r) out.old at out.new result }
{
    let behind = text::put_words(out, at, b"R");
    text::put_decimal(out, behind, u64::from(r))
}

pub fn put_lane(out: &mut [u8], at: usize, r: u8, lane: u8) -> usize
    ensures { Puts (lane_text r lane) out.old at out.new result }
{
    let behind_register = put_register(out, at, r);
    let behind_dot = text::put_words(out, behind_register, b".");
    text::put_decimal(out, behind_dot, u64::from(lane))
}

// One cell of a row. The index may be above 255 where the row runs past its array's end.
// `as`: no `From` leads from usize to u64.
fn put_cell(out: &mut [u8], at: usize, array: u8, index: usize) -> usize
    ensures { Puts (words " " ++ cell_text array index) out.old at out.new result }
{
    let behind_letter = text::put_words(out, at, b" A");
    let behind_array = text::put_decimal(out, behind_letter, u64::from(array));
    let behind_bracket = text::put_words(out, behind_array, b"[");
    let behind_index = text::put_decimal(out, behind_bracket, index as u64);
    text::put_words(out, behind_index, b"]")
}

// "k cells in a row"
pub fn put_row(out: &mut [u8], at: usize, k: u8, array: u8, index: u8) -> usize
    ensures { Puts (row_text k array index) out.old at out.new result }
{
    let first = usize::from(index);
    let mut behind = at;
    for i in 0..usize::from(k) {
        behind = put_cell(out, behind, array, first + i);
    }
    behind
}

// A slot past the lanes is not shown.
fn put_operand(out: &mut [u8], at: usize, k: u8, slot: u8, o: Operand) -> usize
    ensures { Puts (slot_text k slot (operand_text o)) out.old at out.new result }
{
    if k <= slot {
        return at;
    }
    let behind = text::put_words(out, at, b" ");
    named::put_operand(out, behind, o)
}

// Constants are put as operands too.
pub fn put_operands(
    out: &mut [u8],
    at: usize,
    k: u8,
    o0: Operand,
    o1: Operand,
    o2: Operand,
    o3: Operand,
) -> usize
    ensures { Puts (slots_text k (operand_text o0) (operand_text o1) (operand_text o2) (operand_text o3)) out.old at out.new result }
{
    let behind_first = put_operand(out, at, k, 0, o0);
    let behind_second = put_operand(out, behind_first, k, 1, o1);
    let behind_third = put_operand(out, behind_second, k, 2, o2);
    put_operand(out, behind_third, k, 3, o3)
}
