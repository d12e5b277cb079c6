// Frames on standard input, answers on standard output, a line for each line.
#![tactic(auto)]

ghost use Rattle.std.specs.Prelude.{◌≤◌, length};
ghost use Rattle.operands.specs.Passing.{Moved, PartTold, LastTold, ReadTold};

use frames::{LONGEST, OUTPUT, batch, finish};
use std::io::{Read, Stdin};

// Writes the first n bytes of the output; `None` where that failed.
fn write(rt: &impl Print, out: &[u8], n: usize) -> Option<()>
    requires { n ≤ length out.now }
{
    rt.write_all(&out[..n]).ok()
}

// How many bytes a read put at the beginning of the store, 0 at the input's end; `None` where it failed.
fn read(stdin: &mut Stdin, input: &mut [u8]) -> Option<usize>
    ensures { Moved (length input.new) result }
{
    stdin.read(input).ok()
}

// What stays from read to read: how much of the unfinished line is held, that line, and the output.
#[derive(Drop)]
struct Answering {
    held: usize,
    carry: [u8; LONGEST],
    out: [u8; OUTPUT],
}

impl Answering {
    // Answers a part of the input, in as many calls as the room for the output asks; `None` where a write failed.
    fn answer_part(&mut self, rt: &impl Print, input: &[u8]) -> Option<()>
        ensures { PartTold input.now self.old self.new result }
    {
        let mut rest = input;
        while !rest.is_empty() {
            let r = batch(rest, self.held, &mut self.carry, &mut self.out);
            write(rt, &self.out, r.written)?;
            rest = &rest[r.consumed..];
            self.held = r.held;
        }
        Some(())
    }

    // Answers the last line, if it lacks its line feed.
    fn answer_last(&mut self, rt: &impl Print)
        ensures { LastTold self.old self.new }
    {
        let n = finish(self.held, &self.carry, &mut self.out);
        write(rt, &self.out, n);
    }

    // Answers what a read gave: so many bytes at the beginning of the store that it was lent, 0 at the input's end. `None` where the program ends.
    fn answer_read(&mut self, rt: &impl Print, got: Option<usize>, input: &[u8]) -> Option<()>
        requires { Moved (length input.now) got }
        ensures { ReadTold got input.now self.old self.new result }
    {
        match got? {
            0 => {
                self.answer_last(rt);
                None
            }
            n => self.answer_part(rt, &input[..n]),
        }
    }
}

// Which bytes a read puts into the store, and which a write takes from one, no contract says: that they are the input's and the output's is
// read in `read` and `write`. A proved loop has to end, and nothing says that the input does. So it counts its turns, up to a number that no
// run uses up.
fn main(rt: HostRuntime) {
    let mut stdin = rt.stdin();
    let mut input = [0u8; 65536];
    let mut answering = Answering {
        held: 0,
        carry: [0u8; LONGEST],
        out: [0u8; OUTPUT],
    };
    for _ in 0..u64::MAX {
        let got = read(&mut stdin, &mut input);
        if answering.answer_read(&rt, got, &input).is_none() {
            return;
        }
    }
}
