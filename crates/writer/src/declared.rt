// What a block declares: "variable, array or index not declared" is 5.

ghost use Rattle.std.specs.Prelude.{◌≡◌, ◌≤◌, take};
ghost use Rattle.basics.specs.Lists.{all};
ghost use Rattle.meaning.specs.Block.{declares_statement};

use meaning::Block;

// Every declared statement names only what the block declares.
pub fn all_declared(block: Block) -> bool
    requires { block.count ≤ 64 }
    ensures { result ≡ all (declares_statement block.variables (take block.arrays block.lengths)) (take block.count block.statements) }
{
    block.statements[..usize::from(block.count)].iter().all(|statement| {
        reader::declares_statement(*statement, block.variables, block.arrays, &block.lengths)
    })
}
