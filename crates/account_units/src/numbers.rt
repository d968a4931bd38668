// Statement numbers in a line, and the line of a section that has none.

ghost use Rattle.std.specs.Prelude.{ℕ, List, [], eqb};
ghost use Rattle.basics.specs.Choice.{pick};
ghost use Rattle.text.specs.Text.{no_line};
ghost use Rattle.text.specs.Puts.{Puts};
ghost use Rattle.account_units.specs.Lines.{number_text, numbers_text, numbers_line, section};
ghost use Rattle.account_units.specs.InTables.{unit_numbers};

use units::Unit;

pub fn put_number(out: &mut [u8], at: usize, number: usize) -> usize
    ensures { Puts (number_text number) out.old at out.new result }
{
    let behind = text::put_words(out, at, b" ");
    text::put_decimal(out, behind, number as u64)
}

fn put_lanes(out: &mut [u8], at: usize, unit: Unit) -> usize
    ensures { Puts (numbers_text (unit_numbers unit)) out.old at out.new result }
{
    let count = usize::from(unit.count).min(4);
    let mut behind = at;
    for lane in &unit.lanes[..count] {
        behind = put_number(out, behind, usize::from(*lane));
    }
    behind
}

// The statements of a unit, in the order of their lanes.
pub fn put_unit(out: &mut [u8], at: usize, unit: Unit) -> usize
    ensures { Puts (numbers_line (unit_numbers unit)) out.old at out.new result }
{
    let behind_space = text::put_words(out, at, b" ");
    let behind_lanes = put_lanes(out, behind_space, unit);
    text::put_words(out, behind_lanes, b"\n")
}

// Where the lines of a section ended at the position where they began there is no line, or no room for
// one: then the line that says so can be put in either case.
#[tactic(auto, using(text::proofs::Putting::nothing))]
fn put_none(out: &mut [u8], at: usize, behind: usize) -> usize
    ensures { Puts (pick (eqb behind at) no_line []) out.old behind out.new result }
{
    if behind == at {
        return text::put_words(out, behind, b"  none\n");
    }
    behind
}

// A section: its heading, the lines that the closure puts, and the line that there is none. Whatever lines
// each of its calls puts, wherever it starts, are the section's.
pub fn put_section<F: FnOnce(&mut [u8], usize) -> usize>(
    out: &mut [u8],
    at: usize,
    heading: &[u8],
    put_lines: F,
) -> usize
    requires { F.IsAlwaysCallable put_lines }
    ensures { (lines : List ℕ)
        → ((before : _) (start : _) (behind : _) (after : _) → F.post put_lines before start behind after → Puts lines before.now start after.now behind)
        → Puts (section heading.now lines) out.old at out.new result }
{
    let start = text::put_words(out, at, heading);
    let behind = put_lines(out, start);
    put_none(out, start, behind)
}
