// The start and both ends of each cell and each live-out variable, a line each.

#![tactic(auto)]

mod line;

ghost use Rattle.std.specs.Prelude.{◌≡◌, true, ◌≤◌, ◌<◌, length};
ghost use Rattle.basics.specs.Lists.{all};
ghost use Rattle.meaning.specs.declared.Place.TheVariants.{Cell};
ghost use Rattle.meaning.specs.Format.{length_fits};
ghost use Rattle.memory.specs.Lent.{lent};
ghost use Rattle.text.specs.Puts.{Puts};
ghost use Rattle.ends.specs.Line.{place_line};
ghost use Rattle.ends.specs.Places.{in_turn, cell_lines, variable_lines};

use meaning::Place;

// Variables and cells as they were lent.
#[derive(Clone, Copy)]
pub struct Contents<'a> {
    pub variables: &'a [u32],
    pub cells: &'a [u32],
}

// The lengths of the arrays, and what the places hold at the start, at the block's end and at the list's end.
#[derive(Clone, Copy)]
pub struct Ends<'a> {
    pub lengths: &'a [u16],
    pub start: Contents<'a>,
    pub block: Contents<'a>,
    pub list: Contents<'a>,
}

// The cells of one array.
fn put_array(out: &mut [u8], at: usize, array: u8, count: usize, ends: Ends) -> usize
    requires { count ≤ 256 }
    ensures { Puts (in_turn (λ i. place_line ends.entry.lengths.now (lent ends.entry.start.variables.now ends.entry.start.cells.now)
        (lent ends.entry.block.variables.now ends.entry.block.cells.now)
        (lent ends.entry.list.variables.now ends.entry.list.cells.now) (Cell array i)) count 0)
        out.old at out.new result }
{
    let mut behind = at;
    for i in 0..count {
        let place = Place::Cell(array, i as u8);
        behind = line::put_place_line(out, behind, place, ends);
    }
    behind
}

// The cells of all arrays.
pub fn put_cells(out: &mut [u8], at: usize, ends: Ends) -> usize
    requires few_arrays { length ends.lengths.now ≤ 8 }
    requires lengths_fit { all length_fits ends.lengths.now ≡ true }
    ensures { Puts (cell_lines (place_line ends.entry.lengths.now (lent ends.entry.start.variables.now ends.entry.start.cells.now)
        (lent ends.entry.block.variables.now ends.entry.block.cells.now)
        (lent ends.entry.list.variables.now ends.entry.list.cells.now)) 0 ends.entry.lengths.now)
        out.old at out.new result }
{
    let mut behind = at;
    for (a, length) in ends.lengths.iter().enumerate() {
        behind = put_array(out, behind, a as u8, usize::from(*length), ends);
    }
    behind
}

// The live-out variables, which are the first ones.
pub fn put_variables(out: &mut [u8], at: usize, live: u8, ends: Ends) -> usize
    ensures { Puts (variable_lines (place_line ends.entry.lengths.now (lent ends.entry.start.variables.now ends.entry.start.cells.now)
        (lent ends.entry.block.variables.now ends.entry.block.cells.now)
        (lent ends.entry.list.variables.now ends.entry.list.cells.now)) live)
        out.old at out.new result }
{
    let mut behind = at;
    for v in 0..live {
        behind = line::put_place_line(out, behind, Place::Variable(v), ends);
    }
    behind
}
