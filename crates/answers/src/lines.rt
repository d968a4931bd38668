// The lines of standard output, from the numbers that making a list returned and the room that it was
// lent.

ghost use Rattle.std.specs.Prelude.{◌≡◌, ◌≤◌, length, take};
ghost use Rattle.text.specs.Puts.{Puts};
ghost use Rattle.answers.specs.Lines.{first_line, second_line, list_lines};

// "status, list length, block price, list price"
fn put_first(out: &mut [u8], status: u8, size: usize, block: u64, list: u64) -> usize
    ensures { Puts (first_line status size block list) out.old 0 out.new result }
{
    let behind_status = text::put_field(out, 0, u64::from(status), b' ');
    let behind_size = text::put_field(out, behind_status, size as u64, b' ');
    let behind_block = text::put_field(out, behind_size, block, b' ');
    text::put_field(out, behind_block, list, b'\n')
}

// "the list in lower-case hex": the first `size` bytes of the room, or all if it has fewer
fn put_second(out: &mut [u8], at: usize, size: usize, room: &[u8]) -> usize
    ensures { Puts (second_line size room.now) out.old at out.new result }
{
    let end = size.min(room.len());
    let behind = text::put_hex(out, at, &room[..end]);
    text::put(out, behind, b'\n')
}

// All of it, and its length: 84 bytes for the first line and 8,193 for the second are enough, so all of it is there.
pub fn put_lines(
    out: &mut [u8],
    status: u8,
    size: usize,
    block: u64,
    list: u64,
    room: &[u8],
) -> usize
    requires { (8277 ≤ length out.old) × (length room.now ≤ 4096) }
    ensures puts { Puts (list_lines (record { status = status; size = size; block_cost = block; list_cost = list; room = room.now })) out.old 0 out.new result }
    ensures text { take result out.new ≡ list_lines (record { status = status; size = size; block_cost = block; list_cost = list; room = room.now }) }
    ensures within { result ≤ length out.new }
{
    let behind = put_first(out, status, size, block, list);
    if status == 0 {
        return put_second(out, behind, size, room);
    }
    behind
}
