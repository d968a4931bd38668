// The bytes of instructions, record behind record, with the count and the price of what was written:
// all but C and G.
//
// All of it is total: a byte past the end of `out` is not written, and a size, a count or a price
// that its type does not hold wraps. A list within the limits does not come near.

#![tactic(auto)]

ghost use Rattle.std.specs.Prelude.{◌≡◌, ◌≤◌};
ghost use Rattle.encode.specs.Records.{listing, put_all, record_behind, write_s, write_cells, write_o, write_x, nothing_written, write_header};

// How far the list goes: its bytes, its instructions, and what they cost.
#[derive(Clone, Copy)]
pub struct Written {
    pub size: u16,
    pub count: u16,
    pub price: u64,
}

// A record of so many bytes that cost so much.
pub fn record_behind(w: Written, size: u8, price: u64) -> Written
    ensures { result ≡ record_behind w size price }
{
    Written {
        size: w.size.wrapping_add(1 + u16::from(size)),
        count: w.count.wrapping_add(1),
        price: w.price.wrapping_add(price),
    }
}

// Bytes one behind the other, from a place on. Of a record the first is its remaining length, and the
// next its code.
pub fn put_all(out: &mut [u8], place: usize, bytes: &[u8])
    requires { place ≤ 70000 }
    ensures { out.new ≡ put_all out.old place bytes.now }
{
    for (i, byte) in bytes.iter().enumerate() {
        slices::put(out, place + i, *byte);
    }
}

pub fn write_s(out: &mut [u8], w: Written, statement: u8, price: u64) -> Written
    ensures { listing out.new result ≡ write_s statement price (listing out.old w) }
{
    put_all(out, usize::from(w.size), &[2, 0, statement]);
    record_behind(w, 2, price)
}

// L, W and D: "r, k, array, index" or "r, lane, array, index".
pub fn write_cells(
    out: &mut [u8],
    w: Written,
    code: u8,
    r: u8,
    k: u8,
    cell: u64,
    price: u64,
) -> Written
    ensures { listing out.new result ≡ write_cells code r k cell price (listing out.old w) }
{
    let array = codes::array_of(cell);
    let index = codes::index_of(cell);
    put_all(out, usize::from(w.size), &[5, code, r, k, array, index]);
    record_behind(w, 5, price)
}

// "r, operation, k, ra, rb (copy: no rb)"
pub fn write_o(out: &mut [u8], w: Written, r: u8, operation: u8, k: u8, ra: u8, rb: u8) -> Written
    ensures { listing out.new result ≡ write_o r operation k ra rb (listing out.old w) }
{
    let place = usize::from(w.size);
    if operation == 0 {
        put_all(out, place, &[5, 4, r, operation, k, ra]);
        return record_behind(w, 5, 1);
    }
    put_all(out, place, &[6, 4, r, operation, k, ra, rb]);
    record_behind(w, 6, 1)
}

pub fn write_x(out: &mut [u8], w: Written, r: u8, lane: u8, variable: u8) -> Written
    ensures { listing out.new result ≡ write_x r lane variable (listing out.old w) }
{
    put_all(out, usize::from(w.size), &[4, 7, r, lane, variable]);
    record_behind(w, 4, 1)
}

// "version 1, total length (2 bytes), instruction count", in front of the records
pub fn nothing_written() -> Written
    ensures { result ≡ nothing_written }
{
    Written {
        size: 4,
        count: 0,
        price: 0,
    }
}

pub fn write_header(out: &mut [u8], w: Written)
    ensures { out.new ≡ write_header (listing out.old w) }
{
    let [size_high, size_low] = w.size.to_be_bytes();
    let [_, count] = w.count.to_be_bytes();
    put_all(out, 0, &[1, size_high, size_low, count]);
}
