// A part of the input, of any length, cut anywhere.
ghost use Rattle.frames.specs.Batches.{BatchTold, FinishTold};
ghost use Rattle.frames.specs.Inner.{HoldTold};

use crate::output::{OUTPUT, Output};
use crate::reply::{HEAD, LONGEST, RECORD, WIDE_DIAGNOSTICS, WIDE_NODES, answer};

// The sizes of the stores for a narrow line: its frame's bytes, its nodes, its diagnostics.
const FRAME: usize = 1279;

const NODES: usize = 3570;

const DIAGNOSTICS: usize = 5110;

// The stores that a narrow line's answer is made in.
#[derive(Drop)]
pub(crate) struct Stores {
    pub(crate) frame: [u8; FRAME],
    pub(crate) nodes: [u8; NODES],
    pub(crate) diagnostics: [u8; DIAGNOSTICS],
}

// What may be filled of the output so that the longest answer has room: its letter, the digits of its four parts, its line feed.
const ROOMY: usize = OUTPUT - (1 + 2 * (HEAD + RECORD + WIDE_NODES + WIDE_DIAGNOSTICS) + 1);

// How many bytes of the input were read, how many of the unfinished line are held, how many were written. Fixed stores with a length
// beside: no heap.
#[derive(Clone, Copy)]
pub struct Batched {
    pub consumed: usize,
    pub held: usize,
    pub written: usize,
}

// Holds one byte more of a line, if there is room. Of a line longer than any frame only that it is longer is kept, as a number past LONGEST:
// `batch` and `finish` take any number. Tried: `held.min(LONGEST) + 1` for both cases takes 11 percent more instructions a frame, and the bar is 3.
#[tactic(auto, unfolding(crate::specs::Machine::held_on, crate::specs::Machine::carry_on, crate::specs::Machine::longest))]
fn hold(carry: &mut [u8; LONGEST], held: usize, b: u8) -> usize
    ensures { HoldTold carry.old held b carry.new result }
{
    if held < LONGEST {
        carry[held] = b;
        held + 1
    } else {
        LONGEST + 1
    }
}

// The lines that end in the input.
fn batch_in(
    input: &[u8],
    held: usize,
    carry: &mut [u8; LONGEST],
    stores: &mut Stores,
    out: &mut [u8; OUTPUT],
) -> Batched
    ensures { BatchTold input.now held carry.old out.old carry.new out.new result }
{
    let mut h = held;
    let mut out = Output {
        bytes: out,
        filled: 0,
    };
    for (i, b) in input.iter().enumerate() {
        if *b != b'\n' {
            h = hold(carry, h, *b);
            continue;
        }
        answer(carry, h, stores, &mut out);
        h = 0;
        if out.filled > ROOMY {
            return Batched {
                consumed: i + 1,
                held: h,
                written: out.filled,
            };
        }
    }
    Batched {
        consumed: input.len(),
        held: h,
        written: out.filled,
    }
}

// Answers the lines that end in the input, until the longest answer has no room, and holds what is left of the last one.
pub fn batch(
    input: &[u8],
    held: usize,
    carry: &mut [u8; LONGEST],
    out: &mut [u8; OUTPUT],
) -> Batched
    ensures { BatchTold input.now held carry.old out.old carry.new out.new result }
{
    let mut stores = Stores {
        frame: [0u8; FRAME],
        nodes: [0u8; NODES],
        diagnostics: [0u8; DIAGNOSTICS],
    };
    batch_in(input, held, carry, &mut stores, out)
}

// Answers the last line, if it lacks its line feed, and returns how many bytes were written.
#[tactic(auto, using(records::specs::Written::written_nothing), unfolding(crate::specs::Machine::last_line))]
pub fn finish(held: usize, carry: &[u8; LONGEST], out: &mut [u8; OUTPUT]) -> usize
    ensures { FinishTold held carry.now out.old out.new result }
{
    if held == 0 {
        return 0;
    }
    let mut stores = Stores {
        frame: [0u8; FRAME],
        nodes: [0u8; NODES],
        diagnostics: [0u8; DIAGNOSTICS],
    };
    let mut out = Output {
        bytes: out,
        filled: 0,
    };
    answer(carry, held, &mut stores, &mut out);
    out.filled
}
