// Whether two runs end alike: the same cells, and the same live-out variables.

ghost use Rattle.std.specs.Prelude.{◌≡◌, take, get_or};
ghost use Rattle.memory.specs.Lent.{lent};
ghost use Rattle.beside.specs.Same.{same_numbers, same_ends};

// Whether the first n numbers of each, or all where there are fewer, are the same.
#[tactic(auto, using(crate::proofs::Comparison::same_pointwise, basics::proofs::Lists::take_least))]
fn same_front(left: &[u32], right: &[u32], n: usize) -> bool
    ensures { result ≡ same_numbers (take n left.now) (take n right.now) }
{
    let l = n.min(left.len());
    let r = n.min(right.len());
    left[..l] == right[..r]
}

// The live-out variables are the first ones; how many, a block's fifth byte says.
#[tactic(auto, using(crate::proofs::Comparison::same_pointwise), unfolding(crate::specs::Same::same_ends))]
pub fn same_ends(
    bytes: &[u8],
    block_variables: &[u32],
    block_cells: &[u32],
    list_variables: &[u32],
    list_cells: &[u32],
) -> bool
    ensures { result ≡ same_ends (get_or bytes.now 4 0) (lent block_variables.now block_cells.now)
        (lent list_variables.now list_cells.now) }
{
    let live = usize::from(slices::at_or(bytes, 4, 0));
    block_cells == list_cells && same_front(block_variables, list_variables, live)
}
