// The program `compare`: it reads a block and starting contents on standard input and prints on standard output
// what the block and the list made for it do with them, side by side.

#![tactic(auto)]

ghost use Rattle.std.specs.Prelude.{◌≡◌, ◌≤◌, length, take};
ghost use Rattle.comparison.specs.Compared.{compared};

use std::io;
use std::io::Write;

// All that standard output is given, and how many bytes it is.
fn print(given: &[u8], out: &mut [u8]) -> usize
    requires { 240000 ≤ length out.old }
    ensures text { take result out.new ≡ compared given.now }
    ensures within { result ≤ length out.new }
{
    comparison::put_comparison(out, given)
}

// One byte more than a block with its contents can have is read, so that too many are seen.
fn main(rt: HostRuntime) -> io::Result<()> {
    let mut input = [0u8; 9304];
    let given = streams::read_front(&mut rt.stdin(), &mut input)?;
    let mut out = [0u8; 240000];
    let size = print(&input[..given], &mut out);
    rt.stdout().write_all(&out[..size])
}
