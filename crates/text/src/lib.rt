// Text in a lent buffer: each function puts its text from a position on, as far as the buffer goes, and
// answers the position behind what it put. So no function asks for room, and a program shows once, for
// its whole text, that there was enough.

#![tactic(auto)]

ghost use Rattle.std.specs.Prelude.{[], ◌∷◌, ◌/◌, ◌%◌, ◌<◌, ◌-◌, ◌≡◌, length};
ghost use Rattle.text.specs.Puts.{Puts};
ghost use Rattle.text.specs.Text.{letter as letter_of, spelled, decimal, field, hex, spaces, column};

// One byte. The position moves only where it fits, which a total store would not say.
pub fn put(out: &mut [u8], at: usize, byte: u8) -> usize
    ensures { Puts (byte ∷ []) out.old at out.new result }
{
    if at < out.len() {
        out[at] = byte;
        return at + 1;
    }
    at
}

// Bytes as they are.
pub fn put_words(out: &mut [u8], at: usize, words: &[u8]) -> usize
    ensures { Puts words.now out.old at out.new result }
{
    let mut behind = at;
    for word in words {
        behind = put(out, behind, *word);
    }
    behind
}

fn letter(digit: u64) -> u8
    requires { digit < 16 }
    ensures { result ≡ letter_of digit }
{
    match digit {
        0..=9 => b'0' + digit as u8,
        _ => b'a' - 10 + digit as u8,
    }
}

// The digits in front of the last one, as many as there are up to `places`, and then the last one.
fn put_spelled(out: &mut [u8], at: usize, places: usize, n: u64) -> usize
    ensures { Puts (spelled places n) out.old at out.new result }
{
    let last = letter(n % 10);
    if places == 0 || n < 10 {
        return put(out, at, last);
    }
    let behind = put_spelled(out, at, places - 1, n / 10);
    put(out, behind, last)
}

// A number in decimal.
pub fn put_decimal(out: &mut [u8], at: usize, n: u64) -> usize
    ensures { Puts (decimal n) out.old at out.new result }
{
    put_spelled(out, at, 19, n)
}

// A number in decimal, and the byte that ends it: a space, a comma, a line feed.
pub fn put_field(out: &mut [u8], at: usize, n: u64, end: u8) -> usize
    ensures { Puts (field n end) out.old at out.new result }
{
    let behind = put_decimal(out, at, n);
    put(out, behind, end)
}

// One byte in hexadecimal.
fn put_pair(out: &mut [u8], at: usize, byte: u8) -> usize
    ensures { Puts (letter_of (byte / 16) ∷ letter_of (byte % 16) ∷ []) out.old at out.new result }
{
    let n = u64::from(byte);
    let high = letter(n / 16);
    let low = letter(n % 16);
    let behind = put(out, at, high);
    put(out, behind, low)
}

// Bytes in hexadecimal, two digits each.
pub fn put_hex(out: &mut [u8], at: usize, bytes: &[u8]) -> usize
    ensures { Puts (hex bytes.now) out.old at out.new result }
{
    let mut behind = at;
    for byte in bytes {
        behind = put_pair(out, behind, *byte);
    }
    behind
}

// So many spaces.
pub fn put_spaces(out: &mut [u8], at: usize, n: usize) -> usize
    ensures { Puts (spaces n) out.old at out.new result }
{
    let mut behind = at;
    for _ in 0..n {
        behind = put(out, behind, b' ');
    }
    behind
}

// How many digits a number has in decimal.
pub fn digits(n: u64) -> usize
    ensures { result ≡ length (decimal n) }
{
    // 0 has one digit, as 1 has
    n.max(1).ilog10() as usize + 1
}

// How many are left of a width, none where nothing is.
pub fn left_of(width: usize, taken: usize) -> usize
    ensures { result ≡ width - taken }
{
    width.saturating_sub(taken)
}

// A number in decimal, at the right end of a column; a number that is wider than the column stands whole.
pub fn put_column(out: &mut [u8], at: usize, width: usize, n: u64) -> usize
    ensures { Puts (column width n) out.old at out.new result }
{
    let empty = left_of(width, digits(n));
    let behind = put_spaces(out, at, empty);
    put_decimal(out, behind, n)
}
