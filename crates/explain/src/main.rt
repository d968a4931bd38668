// The explain program: it reads a block on standard input and prints, for people, how its list comes
// about. A refusal is printed in words in the same place.

#![tactic(auto)]

ghost use Rattle.std.specs.Prelude.{◌≡◌, ◌≤◌, length, take};
ghost use Rattle.explain.specs.Printed.{printed};

use std::io;
use std::io::Write;

// All that standard output is given. Input over 4,096 bytes is not looked at.
fn print(input: &[u8], out: &mut [u8]) -> usize
    requires { 60000 ≤ length out.old }
    ensures text { take result out.new ≡ printed input.now }
    ensures within { result ≤ length out.new }
{
    if input.len() > 4096 {
        return text::put_words(
            out,
            0,
            b"refused with 2: The input has over 4096 bytes, which no block has.\nThe numbers are listed in docs/PROMISES.md under \"Numbers returned\".\n",
        );
    }
    let behind = account::put_account(out, input);
    if input.is_empty() {
        return text::put_words(
            out,
            behind,
            b"usage: explain < BLOCK\nBLOCK is a file with the bytes of one block; how its list comes about is printed.\n",
        );
    }
    behind
}

fn main(rt: HostRuntime) -> io::Result<()> {
    let mut input = [0u8; 4097];
    let given = streams::read_front(&mut rt.stdin(), &mut input)?;
    let mut out = [0u8; 60000];
    let size = print(&input[..given], &mut out);
    rt.stdout().write_all(&out[..size])
}
