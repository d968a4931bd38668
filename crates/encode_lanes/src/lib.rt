// The bytes of C and G, whose records go by their lanes: two of them, or four.

#![tactic(auto)]

ghost use Rattle.std.specs.Prelude.{◌≡◌, ◌≤◌};
ghost use Rattle.encode.specs.Records.{listing};
ghost use Rattle.encode_lanes.specs.Lanes.{put_constant, put_constants, write_c, code_width, put_operand, put_operands, width_of, cells_of, write_g};

use encode::Written;

fn put_constant(out: &mut [u8], place: usize, code: u64)
    requires { place ≤ 70000 }
    ensures { out.new ≡ put_constant out.old place code }
{
    let [.., a, b, c, d] = codes::constant_of(code).to_be_bytes();
    encode::put_all(out, place, &[a, b, c, d]);
}

fn put_constants(out: &mut [u8], place: usize, first: u64, second: u64)
    requires { place ≤ 69000 }
    ensures { out.new ≡ put_constants out.old place first second }
{
    put_constant(out, place, first);
    put_constant(out, place + 4, second);
}

// "every constant of C takes 4 bytes"
pub fn write_c(out: &mut [u8], w: Written, r: u8, k: u8, lanes: [u64; 4]) -> Written
    ensures { listing out.new result ≡ write_c r k lanes (listing out.old w) }
{
    let place = usize::from(w.size);
    let size = if k == 2 { 11 } else { 19 };
    encode::put_all(out, place, &[size, 2, r, k]);
    put_constants(out, place + 4, lanes[0], lanes[1]);
    if k != 2 {
        put_constants(out, place + 12, lanes[2], lanes[3]);
    }
    encode::record_behind(w, size, 1)
}

fn width(code: u64) -> u8
    ensures { (result ≡ code_width code) × (result ≤ 5) }
{
    if codes::is_constant(code) {
        5
    } else if codes::is_cell(code) {
        3
    } else {
        2
    }
}

// An operand's bytes, "written as in a block".
fn put_operand(out: &mut [u8], place: usize, code: u64)
    requires { place ≤ 69000 }
    ensures { out.new ≡ put_operand out.old place code }
{
    if codes::is_constant(code) {
        encode::put_all(out, place, &[0]);
        put_constant(out, place + 1, code);
    } else if codes::is_cell(code) {
        let bytes = [2, codes::array_of(code), codes::index_of(code)];
        encode::put_all(out, place, &bytes);
    } else {
        encode::put_all(out, place, &[1, codes::variable_of(code)]);
    }
}

fn put_operands(out: &mut [u8], place: usize, first: u64, second: u64)
    requires { place ≤ 68000 }
    ensures { out.new ≡ put_operands out.old place first second }
{
    put_operand(out, place, first);
    put_operand(out, place + usize::from(width(first)), second);
}

// How many bytes and how many cells two operands have.
fn width_of(first: u64, second: u64) -> u8
    ensures { (result ≡ width_of first second) × (result ≤ 10) }
{
    width(first) + width(second)
}

fn cells_of(first: u64, second: u64) -> u64
    ensures { (result ≡ cells_of first second) × (result ≤ 2) }
{
    codes::cell_count(first) + codes::cell_count(second)
}

// "k + cell lanes"
pub fn write_g(out: &mut [u8], w: Written, r: u8, k: u8, lanes: [u64; 4]) -> Written
    ensures { listing out.new result ≡ write_g r k lanes (listing out.old w) }
{
    let place = usize::from(w.size);
    let front = width_of(lanes[0], lanes[1]);
    let price = cells_of(lanes[0], lanes[1]);
    if k == 2 {
        encode::put_all(out, place, &[3 + front, 3, r, k]);
        put_operands(out, place + 4, lanes[0], lanes[1]);
        return encode::record_behind(w, 3 + front, 2 + price);
    }
    let size = 3 + front + width_of(lanes[2], lanes[3]);
    encode::put_all(out, place, &[size, 3, r, k]);
    put_operands(out, place + 4, lanes[0], lanes[1]);
    put_operands(out, place + 4 + usize::from(front), lanes[2], lanes[3]);
    encode::record_behind(w, size, 4 + price + cells_of(lanes[2], lanes[3]))
}
