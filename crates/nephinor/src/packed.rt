// Status and numbers in one number of 64 bits: that is what the C interface returns.

ghost use Rattle.std.specs.Prelude.{◌≡◌};
ghost use Rattle.nephinor.specs.Packed.{packed};

#[tactic(auto, unfolding(crate::specs::Packed::packed))]
pub fn pack(status: u8, size: usize, first: usize, second: usize) -> u64
    ensures { result ≡ packed status size first second }
{
    // `as`: there is no From of a usize for u64.
    let number = u64::from(status);
    let s = (size % 65536) as u64;
    let f = (first % 65536) as u64;
    let g = (second % 65536) as u64;
    number + 256 * s + 16777216 * f + 1099511627776 * g
}
