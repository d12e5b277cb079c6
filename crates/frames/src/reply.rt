// The answer line of one input line.
ghost use Rattle.std.specs.Prelude.{◌≡◌, ◌++◌, ◌+◌, ◌*◌, ◌≤◌, ◌<◌, length};
ghost use Rattle.operand.specs.declared.layouts.Layout.TheVariants as layouts;
ghost use Rattle.operand.specs.RefusalNumbers;
ghost use Rattle.frames.specs.Frame.{opening};
ghost use Rattle.frames.specs.Reply.{refused, ended, line_bytes};
ghost use Rattle.frames.specs.Machine.{held_line};
ghost use Rattle.frames.specs.Inner.{Wrote, case_of, RecordPut, AnswerAsks, answer_bytes, ReadDigitsAsk, ReadTold, DigitsAsk};

use crate::batches::Stores;
use crate::frame::{frame_line, read_frame};
use crate::hex::decode;
use crate::output::Output;
use layout::{Answer, Case, head_size, write_head, write_operand};
use operand::{Layout, OperandRecord, Refusal};

// The letter that a wide line opens with.
const WIDE: u8 = b'w';

// The characters of the longest line that is a frame; of the longest narrow one; of the longest wide one whose line and list are not too long.
pub const LONGEST: usize = 917507;

const LONGEST_NARROW: usize = 2558;

const LONGEST_LAWFUL: usize = 20483;

// The sizes of the stores for a wide frame's bytes: the longest, and the longest whose line and list are not too long.
const WIDE_FRAME: usize = 458753;

const LAWFUL_FRAME: usize = 10241;

// The sizes of the stores for an answer's parts: its head, the operand's record, a wide line's nodes, its diagnostics.
pub(crate) const HEAD: usize = 7;

pub(crate) const RECORD: usize = 30;

pub(crate) const WIDE_NODES: usize = 18414;

pub(crate) const WIDE_DIAGNOSTICS: usize = 32752;

// Opens a line as its layout does.
fn open_line(layout: Layout, out: &mut Output)
    requires { out.old.filled < length out.old.bytes.now }
    ensures lent { out.new.bytes.ghost_name ≡ out.old.bytes.ghost_name }
    ensures wrote { Wrote out.old out.new (opening layout) }
{
    match layout {
        Layout::Narrow => {}
        Layout::Wide => out.push(WIDE),
    }
}

// The opening, the four parts of an answer one after the other, and the line feed.
fn put_parts(
    layout: Layout,
    out: &mut Output,
    head: &[u8],
    operand: &[u8],
    nodes: &[u8],
    diagnostics: &[u8],
)
    requires { out.old.filled + 2 * (length head.now + length operand.now + length nodes.now + length diagnostics.now) + 2 ≤ length out.old.bytes.now }
    ensures lent { out.new.bytes.ghost_name ≡ out.old.bytes.ghost_name }
    ensures wrote { Wrote out.old out.new (ended layout (head.now ++ (operand.now ++ (nodes.now ++ diagnostics.now)))) }
{
    open_line(layout, out);
    out.put(head);
    out.put(operand);
    out.put(nodes);
    out.put(diagnostics);
    out.push(b'\n');
}

// A refusal is a head alone.
fn refuse(layout: Layout, out: &mut Output, refusal: Refusal)
    requires { out.old.filled + 6 ≤ length out.old.bytes.now }
    ensures lent { out.new.bytes.ghost_name ≡ out.old.bytes.ghost_name }
    ensures wrote { Wrote out.old out.new (ended layout (refused (RefusalNumbers.number refusal))) }
{
    let head = [u8::from(Case::Refused), u8::from(refusal)];
    put_parts(layout, out, &head, &[], &[], &[]);
}

// The number of an answer's case.
fn case_of(operand: Option<OperandRecord>) -> u8
    ensures { result ≡ case_of operand }
{
    u8::from(operand.map_or(Case::NoOperand, |_| Case::Operand))
}

// Writes the operand's record, if there is one, to the beginning of the store, and returns its length. A match: the closure of a `map_or`
// would write to the store, which is no plainer.
#[tactic(auto, using(crate::proofs::reply::Putting::record_put))]
fn put_record(layout: Layout, operand: Option<OperandRecord>, store: &mut [u8; RECORD]) -> usize
    ensures { RecordPut layout operand store.new result }
{
    match operand {
        Some(x) => {
            write_operand(layout, x, store, 0);
            layout.operand_size()
        }
        None => 0,
    }
}

fn put_answer(layout: Layout, out: &mut Output, x: Answer, nodes: &[u8], diagnostics: &[u8])
    requires { AnswerAsks layout out.old x nodes.now diagnostics.now }
    ensures lent { out.new.bytes.ghost_name ≡ out.old.bytes.ghost_name }
    ensures wrote { Wrote out.old out.new (ended layout (answer_bytes layout x nodes.now diagnostics.now)) }
{
    let mut head = [0u8; HEAD];
    let mut record = [0u8; RECORD];
    let case = case_of(x.operand);
    write_head(layout, case, x.cursor, x.nodes, x.diagnostics, &mut head, 0);
    let head_end = head_size(layout);
    let record_end = put_record(layout, x.operand, &mut record);
    let node_end = layout.node_size() * x.nodes;
    let diagnostic_end = layout.diagnostic_size() * x.diagnostics;
    put_parts(
        layout,
        out,
        &head[..head_end],
        &record[..record_end],
        &nodes[..node_end],
        &diagnostics[..diagnostic_end],
    );
}

// What the characters behind a line's opening are answered: an answer, whose records are in the stores, or a refusal. The stores are three slices here:
// tried, a struct with their sizes as const parameters takes 14 percent more instructions a frame, and the bar is 3.
fn read_digits(
    layout: Layout,
    line: &[u8],
    frame: &mut [u8],
    nodes: &mut [u8],
    diagnostics: &mut [u8],
) -> Result<Answer, Refusal>
    requires { ReadDigitsAsk layout line.now frame.old nodes.old diagnostics.old }
    ensures { ReadTold layout line.now nodes.new diagnostics.new result }
{
    let n = decode(line, frame).ok_or(Refusal::BadFrame)?;
    let bytes = &frame[..n];
    let k = frame_line(layout, bytes).ok_or(Refusal::BadFrame)?;
    read_frame(layout, bytes, k, nodes, diagnostics)
}

// The answer to the characters behind a line's opening.
fn answer_digits(
    layout: Layout,
    line: &[u8],
    frame: &mut [u8],
    nodes: &mut [u8],
    diagnostics: &mut [u8],
    out: &mut Output,
)
    requires { DigitsAsk layout line.now frame.old nodes.old diagnostics.old out.old }
    ensures lent { out.new.bytes.ghost_name ≡ out.old.bytes.ghost_name }
    ensures wrote { Wrote out.old out.new (ended layout (line_bytes layout line.now)) }
{
    match read_digits(layout, line, frame, nodes, diagnostics) {
        Ok(x) => put_answer(layout, out, x, nodes, diagnostics),
        Err(refusal) => refuse(layout, out, refusal),
    }
}

// The answer to a wide line without its letter. `SIZE` is the size of the store for a frame's bytes. The stores are this function's own, so
// that a narrow line need not wait for them to be cleared.
fn answer_wide<const SIZE: usize>(line: &[u8], out: &mut Output)
    requires { (length line.now ≤ 2 * SIZE) × (SIZE ≤ 458753) × (out.old.filled + 102408 ≤ length out.old.bytes.now) }
    ensures lent { out.new.bytes.ghost_name ≡ out.old.bytes.ghost_name }
    ensures wrote { Wrote out.old out.new (ended layouts.Wide (line_bytes layouts.Wide line.now)) }
{
    let mut frame = [0u8; SIZE];
    let mut nodes = [0u8; WIDE_NODES];
    let mut diagnostics = [0u8; WIDE_DIAGNOSTICS];
    answer_digits(
        Layout::Wide,
        line,
        &mut frame,
        &mut nodes,
        &mut diagnostics,
        out,
    );
}

// The answer to a line of which so many bytes are held; with more than LONGEST it is longer than any frame.
pub(crate) fn answer(carry: &[u8; LONGEST], held: usize, stores: &mut Stores, out: &mut Output)
    requires { out.old.filled + 102408 ≤ length out.old.bytes.now }
    ensures lent { out.new.bytes.ghost_name ≡ out.old.bytes.ghost_name }
    ensures wrote { Wrote out.old out.new (held_line held carry.now) }
{
    let line = &carry[..held.min(LONGEST)];
    match line.strip_prefix(&[WIDE]) {
        // Not all of it is held.
        Some(_) if held > LONGEST => refuse(Layout::Wide, out, Refusal::BadFrame),
        // Its line or its list is too long, if it is a frame.
        Some(rest) if held > LONGEST_LAWFUL => answer_wide::<WIDE_FRAME>(rest, out),
        Some(rest) => answer_wide::<LAWFUL_FRAME>(rest, out),
        // Longer than a narrow frame, whether all of it is held or not.
        None if held > LONGEST_NARROW => refuse(Layout::Narrow, out, Refusal::BadFrame),
        None => answer_digits(
            Layout::Narrow,
            line,
            &mut stores.frame,
            &mut stores.nodes,
            &mut stores.diagnostics,
            out,
        ),
    }
}
