// What the writer tests first: the counts and the array lengths (3), then the form of each statement
// (4).

ghost use Rattle.std.specs.Prelude.{◌≡◌, ◌≤◌, take};
ghost use Rattle.basics.specs.Lists.{all};
ghost use Rattle.meaning.specs.Format.{counts_fit, length_fits, well_formed};

use meaning::Block;

// "a count .. over its limit .. or live-out above variables"
pub fn counts_fit(variables: u8, live: u8, arrays: u8, count: u8) -> bool
    ensures { result ≡ counts_fit variables live arrays count }
{
    variables <= 32 && live <= variables && arrays <= 8 && count <= 64
}

// "arrays of 1 to 256 cells"
fn length_fits(n: u16) -> bool
    ensures { result ≡ length_fits n }
{
    (1..=256).contains(&n)
}

// Every declared length fits.
pub fn lengths_fit(block: Block) -> bool
    requires { block.arrays ≤ 8 }
    ensures { result ≡ all length_fits (take block.arrays block.lengths) }
{
    block.lengths[..usize::from(block.arrays)]
        .iter()
        .all(|n| length_fits(*n))
}

// Every declared statement is well formed.
pub fn all_well_formed(block: Block) -> bool
    requires { block.count ≤ 64 }
    ensures { result ≡ all well_formed (take block.count block.statements) }
{
    block.statements[..usize::from(block.count)]
        .iter()
        .all(|statement| reader::well_formed(*statement))
}
