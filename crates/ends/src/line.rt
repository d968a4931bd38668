// The line of one place: its name, its start, the block's end and the list's end, and a mark where the ends
// differ.

ghost use Rattle.std.specs.Prelude.{◌≡◌, ◌≤◌, length};
ghost use Rattle.memory.specs.Lent.{lent};
ghost use Rattle.text.specs.Puts.{Puts};
ghost use Rattle.text.specs.Text.{decimal};
ghost use Rattle.named.specs.Names.{place_text};
ghost use Rattle.ends.specs.Line.{name_text, numbers_text, line_end, line, place_line};

use crate::Ends;
use meaning::Place;

// At most twenty, since the number has 64 bits.
fn digits(n: u64) -> usize
    ensures { (result ≡ length (decimal n)) × (result ≤ 20) }
{
    text::digits(n)
}

fn name_length(place: Place) -> usize
    ensures { result ≡ length (place_text place) }
{
    match place {
        Place::Variable(v) => 1 + digits(u64::from(v)),
        Place::Cell(array, index) => 3 + digits(u64::from(array)) + digits(u64::from(index)),
    }
}

fn put_name(out: &mut [u8], at: usize, place: Place) -> usize
    ensures { Puts (name_text place) out.old at out.new result }
{
    let empty = text::left_of(7, name_length(place));
    let behind = named::put_place(out, at, place);
    text::put_spaces(out, behind, empty)
}

fn put_numbers(out: &mut [u8], at: usize, start: u32, block: u32, list: u32) -> usize
    ensures { Puts (numbers_text start block list) out.old at out.new result }
{
    let behind_start = text::put_column(out, at, 12, u64::from(start));
    let behind_block = text::put_column(out, behind_start, 12, u64::from(block));
    text::put_column(out, behind_block, 12, u64::from(list))
}

fn put_line_end(out: &mut [u8], at: usize, block: u32, list: u32) -> usize
    ensures { Puts (line_end block list) out.old at out.new result }
{
    if block == list {
        return text::put_words(out, at, b"\n");
    }
    text::put_words(out, at, b"  *\n")
}

fn put_line(out: &mut [u8], at: usize, place: Place, start: u32, block: u32, list: u32) -> usize
    ensures { Puts (line place start block list) out.old at out.new result }
{
    let behind_name = put_name(out, at, place);
    let behind_numbers = put_numbers(out, behind_name, start, block, list);
    put_line_end(out, behind_numbers, block, list)
}

// The line of a place, from the contents at the start, at the block's end and at the list's end.
pub fn put_place_line(out: &mut [u8], at: usize, place: Place, ends: Ends) -> usize
    ensures { Puts (place_line ends.entry.lengths.now (lent ends.entry.start.variables.now ends.entry.start.cells.now)
        (lent ends.entry.block.variables.now ends.entry.block.cells.now)
        (lent ends.entry.list.variables.now ends.entry.list.cells.now) place)
        out.old at out.new result }
{
    let start = memory::fetch_place(place, ends.lengths, ends.start.variables, ends.start.cells);
    let block = memory::fetch_place(place, ends.lengths, ends.block.variables, ends.block.cells);
    let list = memory::fetch_place(place, ends.lengths, ends.list.variables, ends.list.cells);
    put_line(out, at, place, start, block, list)
}
