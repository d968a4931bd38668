// How many bytes a block takes, and each part of it.

ghost use Rattle.std.specs.Prelude.{◌≡◌, ◌≤◌, length};
ghost use Rattle.meaning.specs.Block.{declared};
ghost use Rattle.meaning.specs.Format.{block_bytes};

use meaning::Block;

// The whole block: seven bytes in front, two for each length, and the records with their counts.
pub fn block_size(block: Block) -> usize
    requires few_arrays { block.arrays ≤ 8 }
    requires few_statements { block.count ≤ 64 }
    ensures { result ≡ length (block_bytes (declared block)) }
{
    let records = block.statements[..usize::from(block.count)]
        .iter()
        .map(|statement| 1 + reader::statement_width(*statement))
        .sum::<usize>();
    7 + 2 * usize::from(block.arrays) + records
}
