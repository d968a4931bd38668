// Both runs and their text: the contents are taken from the bytes three times, once to be kept, once for the
// block and once for the list.

ghost use Rattle.std.specs.Prelude.{◌≡◌, true, [], ◌≤◌, length};
ghost use Rattle.basics.specs.Lists.{all};
ghost use Rattle.meaning.specs.Format.{length_fits};
ghost use Rattle.memory.specs.Lent.{lent};
ghost use Rattle.beside.specs.Beside.{answer, side_by_side};
ghost use Rattle.text.specs.Puts.{Puts};
ghost use Rattle.comparison.specs.Input.{numbers_in};
ghost use Rattle.comparison.specs.Lines.{run_line, verdict, beside_text, compared_on};
ghost use Rattle.comparison.specs.Compared.{room as no_list, sized_text};

use beside::Beside;
use ends::{Contents, Ends};

fn put_run(out: &mut [u8], at: usize, whose: &[u8], status: u8, price: usize) -> usize
    ensures { Puts (run_line whose.now status price) out.old at out.new result }
{
    let behind_name = text::put_words(out, at, whose);
    let behind_status = text::put_decimal(out, behind_name, u64::from(status));
    let behind_words = text::put_words(out, behind_status, b", price ");
    text::put_field(out, behind_words, price as u64, b'\n')
}

fn put_verdict(out: &mut [u8], at: usize, same: bool) -> usize
    ensures { Puts (verdict same) out.old at out.new result }
{
    if same {
        return text::put_words(
            out,
            at,
            b"Every cell and every live-out variable ends alike.\n",
        );
    }
    text::put_words(out, at, b"They differ where a line is marked.\n")
}

fn put_beside(out: &mut [u8], sides: Beside, live: u8, ends: Ends) -> usize
    requires few_arrays { length ends.lengths.now ≤ 8 }
    requires lengths_fit { all length_fits ends.lengths.now ≡ true }
    ensures { Puts (beside_text ends.entry.lengths.now live (lent ends.entry.start.variables.now ends.entry.start.cells.now)
        (answer sides [] (lent ends.entry.block.variables.now ends.entry.block.cells.now)
        (lent ends.entry.list.variables.now ends.entry.list.cells.now)))
        out.old 0 out.new result }
{
    let behind_block = put_run(out, 0, b"block: status ", sides.block, sides.block_paid);
    let behind_list = put_run(
        out,
        behind_block,
        b"list: status ",
        sides.list,
        sides.list_paid,
    );
    let behind_heading = text::put_words(
        out,
        behind_list,
        b"              start       block        list\n",
    );
    let behind_cells = ends::put_cells(out, behind_heading, ends);
    let behind_variables = ends::put_variables(out, behind_cells, live, ends);
    put_verdict(out, behind_variables, sides.same)
}

// The block and its list are run on copies of their own.
fn put_run_sides<'a>(
    out: &mut [u8],
    room: &mut [u8],
    live: u8,
    lengths: &'a [u16],
    bytes: &[u8],
    start_variables: &'a [u32],
    start_cells: &'a [u32],
    block_variables: &'a mut [u32],
    block_cells: &'a mut [u32],
    list_variables: &'a mut [u32],
    list_cells: &'a mut [u32],
) -> usize
    requires few_arrays { length lengths.now ≤ 8 }
    requires lengths_fit { all length_fits lengths.now ≡ true }
    ensures { Puts (beside_text lengths.now live (lent start_variables.now start_cells.now)
        (side_by_side bytes.now room.old (lent block_variables.old block_cells.old)
        (lent list_variables.old list_cells.old)))
        out.old 0 out.new result }
{
    let sides = beside::side_by_side(
        bytes,
        room,
        block_variables,
        block_cells,
        list_variables,
        list_cells,
    );
    let ends = Ends {
        lengths,
        start: Contents {
            variables: start_variables,
            cells: start_cells,
        },
        block: Contents {
            variables: block_variables,
            cells: block_cells,
        },
        list: Contents {
            variables: list_variables,
            cells: list_cells,
        },
    };
    put_beside(out, sides, live, ends)
}

// The contents are taken from the bytes three times.
fn put_filled(
    out: &mut [u8],
    room: &mut [u8],
    live: u8,
    lengths: &[u16],
    bytes: &[u8],
    variable_bytes: &[u8],
    cell_bytes: &[u8],
    start_variables: &mut [u32],
    start_cells: &mut [u32],
    block_variables: &mut [u32],
    block_cells: &mut [u32],
    list_variables: &mut [u32],
    list_cells: &mut [u32],
) -> usize
    requires few_arrays { length lengths.now ≤ 8 }
    requires lengths_fit { all length_fits lengths.now ≡ true }
    requires few_to_take { (length start_variables.old ≤ 2048) × (length start_cells.old ≤ 2048) }
    requires as_many_variables { (length block_variables.old ≡ length start_variables.old) × (length list_variables.old ≡ length start_variables.old) }
    requires as_many_cells { (length block_cells.old ≡ length start_cells.old) × (length list_cells.old ≡ length start_cells.old) }
    ensures { Puts (compared_on lengths.now live bytes.now room.old
        (lent (numbers_in (length start_variables.old) variable_bytes.now) (numbers_in (length start_cells.old) cell_bytes.now)))
        out.old 0 out.new result }
{
    crate::input::take_numbers(start_variables, variable_bytes);
    crate::input::take_numbers(start_cells, cell_bytes);
    crate::input::take_numbers(block_variables, variable_bytes);
    crate::input::take_numbers(block_cells, cell_bytes);
    crate::input::take_numbers(list_variables, variable_bytes);
    crate::input::take_numbers(list_cells, cell_bytes);
    put_run_sides(
        out,
        room,
        live,
        lengths,
        bytes,
        start_variables,
        start_cells,
        block_variables,
        block_cells,
        list_variables,
        list_cells,
    )
}

// As many variables and cells as the block declares.
fn put_declared(
    out: &mut [u8],
    live: u8,
    lengths: &[u16],
    bytes: &[u8],
    variable_bytes: &[u8],
    cell_bytes: &[u8],
    variables: usize,
    cells: usize,
) -> usize
    requires few_arrays { length lengths.now ≤ 8 }
    requires lengths_fit { all length_fits lengths.now ≡ true }
    requires few_places { (variables ≤ 32) × (cells ≤ 2048) }
    ensures { Puts (compared_on lengths.now live bytes.now no_list
        (lent (numbers_in variables variable_bytes.now) (numbers_in cells cell_bytes.now)))
        out.old 0 out.new result }
{
    let mut room = [0u8; 4096];
    let mut start_variables = [0u32; 32];
    let mut start_cells = [0u32; 2048];
    let mut block_variables = [0u32; 32];
    let mut block_cells = [0u32; 2048];
    let mut list_variables = [0u32; 32];
    let mut list_cells = [0u32; 2048];
    put_filled(
        out,
        &mut room,
        live,
        lengths,
        bytes,
        variable_bytes,
        cell_bytes,
        &mut start_variables[..variables],
        &mut start_cells[..cells],
        &mut block_variables[..variables],
        &mut block_cells[..cells],
        &mut list_variables[..variables],
        &mut list_cells[..cells],
    )
}

// The bytes behind the block must be as many as its variables and cells take.
pub fn put_sized(
    out: &mut [u8],
    lengths: &[u16],
    variables: u8,
    live: u8,
    bytes: &[u8],
    rest: &[u8],
) -> usize
    requires few_arrays { length lengths.now ≤ 8 }
    requires lengths_fit { all length_fits lengths.now ≡ true }
    requires few_variables { variables ≤ 32 }
    ensures { Puts (sized_text bytes.now lengths.now variables live rest.now) out.old 0 out.new result }
{
    let count = usize::from(variables);
    let cells = memory::cell_at(lengths, 8, 0);
    let needed = 4 * (count + cells);
    if rest.len() != needed {
        return crate::refusals::put_wrong_size(out, rest.len(), needed);
    }
    let middle = 4 * count;
    put_declared(
        out,
        live,
        lengths,
        bytes,
        rest,
        &rest[middle..],
        count,
        cells,
    )
}
