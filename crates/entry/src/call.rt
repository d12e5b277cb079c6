// The entry: what a call lends and gives, and what comes back. A slice that is lent anew (`&*line`) is handed on in registers, not
// through memory.
ghost use Rattle.std.specs.Prelude.{◌≤◌, length};
ghost use Rattle.operand.specs.Entry.{call};
ghost use Rattle.layout.specs.Promise.{EntryPromise};
ghost use Rattle.entry.specs.Call.{StoresAsk, AnswerTold};

use decoding::decode_tokens;
use layout::{Answer, encode_diagnostics, encode_nodes};
use operand::{Layout, OperandStep, Refusal};
use operand_code::operand_at;
use refusals::{refuse_line_and_list, refuse_start_stores_and_limit};

// What a call is given by value.
#[derive(Clone, Copy)]
struct Given {
    layout: Layout,
    start: usize,
    mark: usize,
    limit: usize,
    used: usize,
}

// Reads the operand that begins at the token `start`; at most `limit` terms may be open in each other. A refusal writes nothing. The
// numbers of the reading stand in stores of the call's own, in six sizes, since to clear them takes longer than to read a short list.
// Parameters and no struct: the call as C's interface has it.
pub fn parse_operand(
    layout: Layout,
    line: &[u8],
    tokens: &[u8],
    start: usize,
    mark: usize,
    limit: usize,
    nodes: &mut [u8],
    diagnostics: &mut [u8],
    used: usize,
) -> Result<Answer, Refusal>
    ensures { EntryPromise (call layout line.now tokens.now start mark limit nodes.old diagnostics.old used) nodes.new diagnostics.new result }
{
    refuse_line_and_list(layout, line, tokens)?;
    let given = Given {
        layout,
        start,
        mark,
        limit,
        used,
    };
    match layout.token_count(tokens.len()) {
        0..=8 => read_within::<32, 80, 90>(line, tokens, given, nodes, diagnostics),
        9..=16 => read_within::<64, 160, 170>(line, tokens, given, nodes, diagnostics),
        17..=64 => read_within::<256, 640, 650>(line, tokens, given, nodes, diagnostics),
        65..=255 => read_within::<1020, 2550, 2560>(line, tokens, given, nodes, diagnostics),
        256..=511 => read_within::<2044, 5110, 5120>(line, tokens, given, nodes, diagnostics),
        _ => read_within::<4092, 10230, 10240>(line, tokens, given, nodes, diagnostics),
    }
}

// The operand of a list that these stores have room for. Of numbers a token has four, a node and a diagnostic ten; there may be a node for
// each token, and a diagnostic more. No const argument can be computed from another.
fn read_within<const LIST: usize, const RECORDS: usize, const REPORTS: usize>(
    line: &[u8],
    tokens: &[u8],
    given: Given,
    nodes: &mut [u8],
    diagnostics: &mut [u8],
) -> Result<Answer, Refusal>
    requires asked { StoresAsk given.layout line.now tokens.now LIST RECORDS REPORTS }
    requires sizes { (LIST ≤ 4092) × (RECORDS ≤ 10230) × (REPORTS ≤ 10240) }
    ensures { EntryPromise (call given.layout line.now tokens.now given.start given.mark given.limit nodes.old diagnostics.old given.used) nodes.new diagnostics.new result }
{
    let mut list = [0u16; LIST];
    let mut records = [0u16; RECORDS];
    let mut reports = [0u16; REPORTS];
    read_operand(
        &*line,
        &*tokens,
        given,
        nodes,
        diagnostics,
        &mut list,
        &mut records,
        &mut reports,
    )
}

// The operand, read in stores of the call's own: the numbers of the list, of the nodes and of the diagnostics.
// No struct of the three: they are lent once, and of its fields each would be lent anew.
fn read_operand(
    line: &[u8],
    tokens: &[u8],
    given: Given,
    nodes: &mut [u8],
    diagnostics: &mut [u8],
    list: &mut [u16],
    records: &mut [u16],
    reports: &mut [u16],
) -> Result<Answer, Refusal>
    requires { StoresAsk given.layout line.now tokens.now (length list.old) (length records.old) (length reports.old) }
    ensures { EntryPromise (call given.layout line.now tokens.now given.start given.mark given.limit nodes.old diagnostics.old given.used) nodes.new diagnostics.new result }
{
    let Given {
        layout,
        start,
        mark,
        limit,
        used,
    } = given;
    decode_tokens(layout, &*line, &*tokens, list)?;
    let count = layout.token_count(tokens.len());
    refuse_start_stores_and_limit(
        layout,
        count,
        start,
        limit,
        nodes.len(),
        diagnostics.len(),
        used,
    )?;
    let end = 4 * count;
    let numbers = &list[..end];
    // It is at most 128: `try_from` would have a case that never comes, which is no plainer.
    let depth = limit as u16;
    let read = operand_at(&*line, numbers, records, reports, start, mark, depth);
    // There is room, so that this refusal never comes. Tried: `unwrap`, whose proof closes; the library's text grows by 221 bytes and has a trap.
    let r = read.ok_or(Refusal::BadStart)?;
    Ok(answered(layout, r, records, reports, nodes, diagnostics, used))
}

// What was read, with its records written into the lent stores.
fn answered(
    layout: Layout,
    r: OperandStep,
    records: &[u16],
    reports: &[u16],
    nodes: &mut [u8],
    diagnostics: &mut [u8],
    used: usize,
) -> Answer
    ensures { AnswerTold layout r records.now reports.now nodes.old diagnostics.old nodes.new diagnostics.new used result }
{
    let counters = r.counters;
    let n = usize::from(counters.nodes);
    let added = usize::from(counters.diagnostics);
    encode_nodes(layout, records, n, nodes);
    encode_diagnostics(layout, reports, added, diagnostics, used);
    Answer {
        operand: r.operand,
        cursor: usize::from(counters.at),
        nodes: n,
        diagnostics: added,
    }
}
