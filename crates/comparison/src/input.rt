// The parts of the input: where the block ends, and numbers of four bytes.

ghost use Rattle.std.specs.Prelude.{◌≡◌, min, ◌≤◌, length, drop};
ghost use Rattle.comparison.specs.Input.{stated, four_in, numbers_in};

// The block ends where it states, or with the input.
pub fn block_end(given: &[u8]) -> usize
    ensures { result ≡ min (stated given.now) (length given.now) }
{
    let stated = u16::from_be_bytes([slices::at_or(given, 1, 0), slices::at_or(given, 2, 0)]);
    usize::from(stated).min(given.len())
}

// The number whose four bytes begin at a place.
fn four_at(bytes: &[u8], at: usize) -> u32
    requires { at ≤ 8192 }
    ensures { result ≡ four_in (drop at bytes.now) }
{
    u32::from_be_bytes([
        slices::at_or(bytes, at, 0),
        slices::at_or(bytes, at + 1, 0),
        slices::at_or(bytes, at + 2, 0),
        slices::at_or(bytes, at + 3, 0),
    ])
}

// All of the numbers, from the bytes in order.
pub fn take_numbers(numbers: &mut [u32], bytes: &[u8])
    requires { length numbers.old ≤ 2048 }
    ensures { numbers.new ≡ numbers_in (length numbers.old) bytes.now }
{
    for (i, number) in numbers.iter_mut().enumerate() {
        *number = four_at(bytes, 4 * i);
    }
}
