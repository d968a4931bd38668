// The eight operations on 32-bit values, as the workstation and the card both use them.

#![tactic(auto)]

ghost use Rattle.std.specs.Prelude.{◌≡◌, ◌*◌, ◌/◌, ◌%◌, ◌^◌};
ghost use Rattle.meaning.specs.Machine.{operate as value_of};

// "Results of 1 to 3 are taken modulo 2^32": the product over 64 bits, with a remainder.
fn multiply(a: u32, b: u32) -> u32
    ensures { result ≡ a * b % 2 ^ 32 }
{
    let product = u64::from(a) * u64::from(b);
    (product % 4294967296) as u32
}

// "The shift count is the right operand modulo 32."
fn shift_right(a: u32, b: u32) -> u32
    ensures { result ≡ a / 2 ^ (b % 32) }
{
    let count = b % 32;
    a >> count
}

// The value of an operation; of a number that is none, 0.
#[tactic(auto, using(crate::proofs::Past::past_operations), unfolding(meaning::specs::Machine::operate))]
pub fn operate(operation: u8, a: u32, b: u32) -> u32
    ensures { result ≡ value_of operation a b }
{
    match operation {
        0 => a,
        1 => a.wrapping_add(b),
        2 => a.wrapping_sub(b),
        3 => multiply(a, b),
        4 => a & b,
        5 => a | b,
        6 => a ^ b,
        7 => shift_right(a, b),
        _ => 0,
    }
}
