// The list program: it reads a block on standard input and prints its list on standard output. What is
// wrong with a block that is refused is said on standard error.

#![tactic(auto)]

ghost use Rattle.std.specs.Prelude.{◌≡◌, ◌≤◌, length, take};
ghost use Rattle.answers.specs.Lines.{made_of, printed};

use maker::Made;
use std::io;
use std::io::Write;

// The status, and how many bytes of text there are. The status stays the number that `nephinor::make_list`
// returns: 0 too has a line, in which it is printed.
#[derive(Clone, Copy)]
struct Printed {
    status: u8,
    size: usize,
}

// "Input over 4,096 bytes prints 2 0 0 0": such input is not looked at.
#[tactic(auto, using(answers::proofs::Chosen::over, answers::proofs::Chosen::not_over))]
fn make(input: &[u8], room: &mut [u8]) -> Made
    ensures { record { status = result.status; size = result.size; block_cost = result.block; list_cost = result.list; room = room.new } ≡ made_of input.now room.old }
{
    if input.len() > 4096 {
        return Made {
            status: 2,
            size: 0,
            block: 0,
            list: 0,
        };
    }
    nephinor::make_list(input, room)
}

// All that standard output is given.
fn print(input: &[u8], room: &mut [u8], out: &mut [u8]) -> Printed
    requires { (length room.old ≤ 4096) × (8277 ≤ length out.old) }
    ensures text { take result.size out.new ≡ printed input.now room.old }
    ensures within { result.size ≤ length out.new }
    ensures status { result.status ≡ (made_of input.now room.old).status }
{
    let made = make(input, room);
    let size = answers::put_lines(out, made.status, made.size, made.block, made.list, room);
    Printed {
        status: made.status,
        size,
    }
}

fn main(rt: HostRuntime) -> io::Result<()> {
    let mut input = [0u8; 4097];
    let given = streams::read_front(&mut rt.stdin(), &mut input)?;
    let mut room = [0u8; 4096];
    let mut out = [0u8; 8292];
    let answer = print(&input[..given], &mut room, &mut out);
    rt.stdout().write_all(&out[..answer.size])?;
    if answer.status != 0 {
        let said = answers::put_complaint(&mut out, answer.status, given);
        rt.stderr().write_all(&out[..said])?;
    }
    Ok(())
}
