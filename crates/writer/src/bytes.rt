// The bytes of a block, put into the room one after the other: each function puts its own from a
// position on, where the room has space for them, and returns the position behind them.

ghost use Rattle.std.specs.Prelude.{◌≡◌, ◌∷◌, map, ◌+◌, ◌≤◌, length, take};
ghost use Rattle.std.proofs.lemmas.List.Edits.{sets};
ghost use Rattle.basics.specs.Lists.{flat};
ghost use Rattle.meaning.specs.Block.{declared};
ghost use Rattle.meaning.specs.Format.{bytes_of, place_bytes, operand_bytes, record_bytes, block_bytes};

use meaning::{Block, Operand, Place, Statement};

// Bytes as they are, from a position on.
fn write_all(bytes: &[u8], room: &mut [u8], at: usize) -> usize
    requires { at + length bytes.now ≤ length room.old }
    ensures behind { result ≡ at + length bytes.now }
    ensures stored { room.new ≡ sets room.old at bytes.now }
{
    let behind = at + bytes.len();
    room[at..behind].copy_from_slice(bytes);
    behind
}

// "Variable: 1 and its number. Cell: 2, array, index."
fn write_place(place: Place, room: &mut [u8], at: usize) -> usize
    requires { at + length (place_bytes place) ≤ length room.old }
    ensures behind { result ≡ at + length (place_bytes place) }
    ensures stored { room.new ≡ sets room.old at (place_bytes place) }
{
    match place {
        Place::Variable(v) => write_all(&[1, v], room, at),
        Place::Cell(array, index) => write_all(&[2, array, index], room, at),
    }
}

// "Constant: 0 and 4 bytes", big-endian.
fn write_constant(constant: u32, room: &mut [u8], at: usize) -> usize
    requires { at + 5 ≤ length room.old }
    ensures behind { result ≡ at + 5 }
    ensures stored { room.new ≡ sets room.old at (0 ∷ bytes_of 4 constant) }
{
    room[at] = 0;
    write_all(&constant.to_be_bytes(), room, at + 1)
}

// An operand that is not there takes no byte.
fn write_operand(operand: Operand, room: &mut [u8], at: usize) -> usize
    requires { at + length (operand_bytes operand) ≤ length room.old }
    ensures behind { result ≡ at + length (operand_bytes operand) }
    ensures stored { room.new ≡ sets room.old at (operand_bytes operand) }
{
    match operand {
        Operand::Nothing => at,
        Operand::Constant(constant) => write_constant(constant, room, at),
        Operand::Held(place) => write_place(place, room, at),
    }
}

// "one byte that counts the rest of its record, then operation, destination, left and .. right"
fn write_record(statement: Statement, room: &mut [u8], at: usize) -> usize
    requires { at + length (record_bytes statement) ≤ length room.old }
    ensures behind { result ≡ at + length (record_bytes statement) }
    ensures stored { room.new ≡ sets room.old at (record_bytes statement) }
{
    // `as`: a width is at most 14, and a conversion that may fail would want a case that never comes.
    let width = reader::statement_width(statement) as u8;
    let behind_operation = write_all(&[width, statement.operation], room, at);
    let behind_destination = write_place(statement.destination, room, behind_operation);
    let behind_left = write_operand(statement.left, room, behind_destination);
    write_operand(statement.right, room, behind_left)
}

// "each array's length (2 bytes)"
fn write_lengths(block: Block, room: &mut [u8], at: usize) -> usize
    requires few { block.arrays ≤ 8 }
    requires space { at + length (flat (map (bytes_of 2) (take block.arrays block.lengths))) ≤ length room.old }
    ensures behind { result ≡ at + length (flat (map (bytes_of 2) (take block.arrays block.lengths))) }
    ensures stored { room.new ≡ sets room.old at (flat (map (bytes_of 2) (take block.arrays block.lengths))) }
{
    let mut place = at;
    for n in &block.lengths[..usize::from(block.arrays)] {
        place = write_all(&n.to_be_bytes(), room, place);
    }
    place
}

// "then the statements"
fn write_statements(block: Block, room: &mut [u8], at: usize) -> usize
    requires few { block.count ≤ 64 }
    requires space { at + length (flat (map record_bytes (take block.count block.statements))) ≤ length room.old }
    ensures behind { result ≡ at + length (flat (map record_bytes (take block.count block.statements))) }
    ensures stored { room.new ≡ sets room.old at (flat (map record_bytes (take block.count block.statements))) }
{
    let mut place = at;
    for statement in &block.statements[..usize::from(block.count)] {
        place = write_record(*statement, room, place);
    }
    place
}

// "version 1; total length (2 bytes, the whole block); variables; live-out count; arrays; statements
// (1 byte each); each array's length; then the statements"
pub fn write_bytes(block: Block, room: &mut [u8], size: usize)
    requires few_arrays { block.arrays ≤ 8 }
    requires few_statements { block.count ≤ 64 }
    requires counted { size ≡ length (block_bytes (declared block)) }
    requires space { size ≤ length room.old }
    ensures { room.new ≡ sets room.old 0 (block_bytes (declared block)) }
{
    // `as`: a size is at most 983.
    let [high, low] = (size as u16).to_be_bytes();
    let header = [
        1,
        high,
        low,
        block.variables,
        block.live,
        block.arrays,
        block.count,
    ];
    let behind_header = write_all(&header, room, 0);
    let behind_lengths = write_lengths(block, room, behind_header);
    write_statements(block, room, behind_lengths);
}
