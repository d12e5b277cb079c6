// The entry as `terminal_c` exports it with C's calling convention, for each layout.
ghost use Rattle.std.specs.Prelude.{◌≡◌, ◌≤◌, length};
ghost use Rattle.operand.specs.Entry.{call};
ghost use Rattle.layout.specs.Promise.{given};
ghost use Rattle.terminal.specs.Exported.{answer_bytes, exported, out_after, told};

use layout::{Answer, Case, head_size, write, write_head, write_operand};
use operand::Layout;

// The number of the refusal of a store that is too short for an answer: the library's own.
const SHORT_ANSWER: u8 = 255;

// Reads the operand that begins at the token `start`, with at most `limit` terms open in each other, and writes the answer into `out`.
// Returns 0, or the number of a refusal, which writes nothing. Parameters and no struct, and a number and no `Result`: the call as C's interface has
// it, since both exports of `terminal_c` hand it on as it is.
pub fn parse_operand(
    layout: Layout,
    line: &[u8],
    tokens: &[u8],
    start: usize,
    mark: usize,
    limit: usize,
    nodes: &mut [u8],
    diagnostics: &mut [u8],
    used: usize,
    out: &mut [u8],
) -> u8
    ensures { told result nodes.new diagnostics.new out.new ≡ exported (call layout line.now tokens.now start mark limit nodes.old diagnostics.old used) out.old }
{
    if out.len() < answer_bytes(layout) {
        return SHORT_ANSWER;
    }
    match entry::parse_operand(
        layout,
        line,
        tokens,
        start,
        mark,
        limit,
        nodes,
        diagnostics,
        used,
    ) {
        Ok(x) => {
            put_answer(layout, out, x);
            0
        }
        Err(refusal) => u8::from(refusal),
    }
}

// The bytes of an answer: the beginning, the operand's record, the mask.
#[tactic(auto, using(crate::specs::Exported::answer_bytes_lem, crate::proofs::call::Puts::answer_few))]
fn answer_bytes(layout: Layout) -> usize
    ensures { result ≡ answer_bytes layout }
{
    head_size(layout) + layout.operand_size() + 2
}

// Without an operand its bytes and the mask are 0.
fn put_answer(layout: Layout, out: &mut [u8], x: Answer)
    requires { answer_bytes layout ≤ length out.old }
    ensures { out.new ≡ out_after layout (given layout (Ok x)) out.old }
{
    let head = head_size(layout);
    match x.operand {
        Some(operand) => {
            let mask = operand.mask.to_le_bytes();
            let case = u8::from(Case::Operand);
            write_head(layout, case, x.cursor, x.nodes, x.diagnostics, out, 0);
            write_operand(layout, operand, out, head);
            write(out, head + layout.operand_size(), &mask[..2]);
        }
        None => {
            let case = u8::from(Case::NoOperand);
            write_head(layout, case, x.cursor, 0, x.diagnostics, out, 0);
            out[head..answer_bytes(layout)].fill(0);
        }
    }
}
