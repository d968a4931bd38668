// The calls for C and Rust, under the names by which they are linked, a slice as a pointer and a length: each is the
// library's call of its name, with the same promise.

#![tactic(auto)]

ghost use Rattle.std.specs.Prelude.{◌≡◌};
ghost use Rattle.memory.specs.Lent.{lent};
ghost use Rattle.meaning.specs.Calls.{read_block_call, run_block_call, run_list_call, make_list_call};
ghost use Rattle.nephinor.specs.Exports.{ran_packed, table_read, table_written, made_packed};

use nephinor::exports;

// A block's bytes read into a table of 652 numbers (table/specs/Table.antt).
#[unsafe(no_mangle)]
pub extern "C" fn nephinor_read_block(bytes: &[u8], numbers: &mut [u32]) -> u64
    ensures { record { number = result; table = numbers.new } ≡ table_read numbers.old (read_block_call bytes.now) }
{
    exports::nephinor_read_block(bytes, numbers)
}

// A block's bytes written from such a table (table/specs/Said.antt).
#[unsafe(no_mangle)]
pub extern "C" fn nephinor_write_block(numbers: &[u32], room: &mut [u8]) -> u64
    ensures { record { number = result; room = room.new } ≡ table_written numbers.now room.old }
{
    exports::nephinor_write_block(numbers, room)
}

#[unsafe(no_mangle)]
pub extern "C" fn nephinor_make_list(bytes: &[u8], room: &mut [u8]) -> u64
    ensures { record { number = result; room = room.new } ≡ made_packed (make_list_call bytes.now room.old) }
{
    exports::nephinor_make_list(bytes, room)
}

#[unsafe(no_mangle)]
pub extern "C" fn nephinor_run_block(bytes: &[u8], variables: &mut [u32], cells: &mut [u32]) -> u64
    ensures { record { number = result; contents = lent variables.new cells.new }
        ≡ ran_packed (run_block_call bytes.now (lent variables.old cells.old)) }
{
    exports::nephinor_run_block(bytes, variables, cells)
}

#[unsafe(no_mangle)]
pub extern "C" fn nephinor_run_list(
    block_bytes: &[u8],
    bytes: &[u8],
    variables: &mut [u32],
    cells: &mut [u32],
) -> u64
    ensures { record { number = result; contents = lent variables.new cells.new }
        ≡ ran_packed (run_list_call block_bytes.now bytes.now (lent variables.old cells.old)) }
{
    exports::nephinor_run_list(block_bytes, bytes, variables, cells)
}
