// The calls for C and Rust: numbers and slices only. Status, size and prices come back in one number
// (specs/Packed.antt). The crate nephinor_c gives them the names by which they are linked.

ghost use Rattle.std.specs.Prelude.{◌≡◌};
ghost use Rattle.memory.specs.Lent.{lent};
ghost use Rattle.meaning.specs.Calls.{read_block_call, run_block_call, run_list_call, make_list_call};
ghost use Rattle.meaning.specs.Refusals.{number_of, needed_of};
ghost use Rattle.nephinor.specs.Packed.{packed};
ghost use Rattle.nephinor.specs.Exports.{ran_packed, table_read, table_written, made_packed};

use meaning::Refusal;

// A refusal that is found here: the table is short.
fn refused(refusal: Refusal) -> u64
    ensures { result ≡ packed (number_of refusal) (needed_of refusal) 0 0 }
{
    crate::packed::pack(refusal.number(), refusal.needed(), 0, 0)
}

// A block's bytes read into a table of 652 numbers (table/specs/Table.antt).
pub fn nephinor_read_block(bytes: &[u8], numbers: &mut [u32]) -> u64
    ensures { record { number = result; table = numbers.new } ≡ table_read numbers.old (read_block_call bytes.now) }
{
    let read = crate::read_block(bytes);
    let status = read.status;
    if status != 0 {
        return crate::packed::pack(status, 0, 0, 0);
    }
    if numbers.len() < 652 {
        return refused(Refusal::Room { needed: 652 });
    }
    table::put::put_block(read.block, numbers);
    crate::packed::pack(0, 652, 0, 0)
}

// A block's bytes written from such a table (table/specs/Said.antt).
pub fn nephinor_write_block(numbers: &[u32], room: &mut [u8]) -> u64
    ensures { record { number = result; room = room.new } ≡ table_written numbers.now room.old }
{
    if numbers.len() < 652 {
        return refused(Refusal::Length);
    }
    let block = table::taken::take_block(numbers);
    let written = crate::write_block(block, room);
    crate::packed::pack(written.status, written.size, 0, 0)
}

pub fn nephinor_make_list(bytes: &[u8], room: &mut [u8]) -> u64
    ensures { record { number = result; room = room.new } ≡ made_packed (make_list_call bytes.now room.old) }
{
    let made = crate::make_list(bytes, room);
    crate::packed::pack(
        made.status,
        made.size,
        made.block as usize,
        made.list as usize,
    )
}

pub fn nephinor_run_block(bytes: &[u8], variables: &mut [u32], cells: &mut [u32]) -> u64
    ensures { record { number = result; contents = lent variables.new cells.new }
        ≡ ran_packed (run_block_call bytes.now (lent variables.old cells.old)) }
{
    let ran = crate::run_block(bytes, variables, cells);
    crate::packed::pack(ran.status, 0, ran.price, 0)
}

pub fn nephinor_run_list(
    block_bytes: &[u8],
    bytes: &[u8],
    variables: &mut [u32],
    cells: &mut [u32],
) -> u64
    ensures { record { number = result; contents = lent variables.new cells.new }
        ≡ ran_packed (run_list_call block_bytes.now bytes.now (lent variables.old cells.old)) }
{
    let answer = crate::run_list(block_bytes, bytes, variables, cells);
    crate::packed::pack(answer.status, 0, answer.price, 0)
}
