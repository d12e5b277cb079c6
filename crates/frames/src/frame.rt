// The parts of a frame, in its layout.
ghost use Rattle.std.specs.Prelude.{◌≡◌, ◌+◌, ◌≤◌, ◌<◌, length};
ghost use Rattle.operand.specs.Layouts.{width, number_at};
ghost use Rattle.layout.specs.Promise.{EntryPromise};
ghost use Rattle.frames.specs.Frame.{lent};
ghost use Rattle.frames.specs.Inner.{ReadAsks, FramedAs};

use entry::parse_operand;
use layout::Answer;
use operand::{Layout, Refusal};

// The nesting limit of every frame, the Rust's own.
const MAX_NESTING_DEPTH: usize = 64;

// The bytes of a count, a start or a mark. A match, as in `Layout`: the layout is a value of the call.
fn width(layout: Layout) -> usize
    ensures { result ≡ width layout }
{
    match layout {
        Layout::Narrow => 1,
        Layout::Wide => 2,
    }
}

// The number that stands from a place on.
#[tactic(auto, unfolding(operand::specs::Layouts::number_at))]
fn number_at(layout: Layout, bytes: &[u8], at: usize) -> usize
    requires { at + width layout ≤ length bytes.now }
    ensures { (result ≡ number_at layout bytes.now at) × (result < 65536) }
{
    match layout {
        Layout::Narrow => usize::from(bytes[at]),
        Layout::Wide => usize::from(u16::from_le_bytes([bytes[at], bytes[at + 1]])),
    }
}

// The length of a frame's line, if the bytes are a frame: their counts give their length.
pub(crate) fn frame_line(layout: Layout, bytes: &[u8]) -> Option<usize>
    ensures { FramedAs layout bytes.now result }
{
    let k = width(layout);
    let line_and_list = bytes.len().checked_sub(4 * k)?;
    let line = number_at(layout, bytes, 0);
    let list = line_and_list.checked_sub(line)?;
    let count = number_at(layout, bytes, line + k);
    (list == layout.token_size() * count).then_some(line)
}

// Reads the operand of a frame whose line is so many bytes long.
pub(crate) fn read_frame(
    layout: Layout,
    bytes: &[u8],
    line: usize,
    nodes: &mut [u8],
    diagnostics: &mut [u8],
) -> Result<Answer, Refusal>
    requires { ReadAsks layout bytes.now line }
    ensures { EntryPromise (lent layout bytes.now nodes.old diagnostics.old) nodes.new diagnostics.new result }
{
    let n = bytes.len();
    let k = width(layout);
    let start = number_at(layout, bytes, n - 2 * k);
    let mark = number_at(layout, bytes, n - k);
    parse_operand(
        layout,
        &bytes[k..line + k],
        &bytes[line + 2 * k..n - 2 * k],
        start,
        mark,
        MAX_NESTING_DEPTH,
        nodes,
        diagnostics,
        0,
    )
}
