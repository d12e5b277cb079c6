// The public function: the operand at a place, whose nodes stand alone in the store.
ghost use Rattle.std.specs.Prelude.{◌≡◌, ◌≤◌, min};
ghost use Rattle.operand_code.specs.Reading.{first, ReadAsks, FitsBy, NothingTold, OperandPromise};

use crate::operands::operand_from;
use expressions::{Setting, Source};
use names::Token;
use operand::OperandStep;
use records::{Counters, MOST_TOKENS, Progress, clear_behind};

// The operand that begins at the token `start`, or none where the counts leave no room for a reading. The records that it does not use
// are cleared: those of failed terms, and without an operand all.
pub fn operand_at(
    line: &[u8],
    tokens: &[u16],
    nodes: &mut [u16],
    diagnostics: &mut [u16],
    start: usize,
    mark: usize,
    limit: u16,
) -> Option<OperandStep>
    ensures { OperandPromise line.now tokens.now nodes.old diagnostics.old nodes.new diagnostics.new start mark limit result }
{
    let count = tokens.len() / 4;
    if MOST_TOKENS < count || count < start || nodes.len() < 10 * count || limit == 0 {
        return None;
    }
    let counters = first(start);
    let Some(token) = names::token_at(tokens, start) else {
        return Some(nothing(nodes, counters));
    };
    let setting = Setting {
        limit,
        mark: mark_within(mark),
        start: token.start,
    };
    let source = Source {
        line,
        tokens,
        setting,
    };
    let mut out = Progress {
        diagnostics,
        counters,
    };
    Some(read(&source, nodes, &mut out, token))
}

// The mark, or one past every list: these are read alike. `as`, here and below: of at most 1,023, which `try_from` would never refuse.
fn mark_within(mark: usize) -> u32
    ensures { result ≡ min mark 1023 }
{
    mark.min(MOST_TOKENS) as u32
}

// The operand whose first token is `token`.
fn read(source: &Source, nodes: &mut [u16], out: &mut Progress, token: Token) -> OperandStep
    requires { ReadAsks source.now nodes.old out.old.counters token }
    ensures lent { out.new.diagnostics.ghost_name ≡ out.old.diagnostics.ghost_name }
    ensures told { FitsBy source.now nodes.old out.old nodes.new out.new result }
{
    let Some(operand) = operand_from(source, nodes, out, token) else {
        return nothing(nodes, out.counters);
    };
    clear_behind(nodes, out.counters.nodes);
    OperandStep {
        operand: Some(operand),
        counters: out.counters,
    }
}

// Before the first token.
fn first(start: usize) -> Counters
    requires { start ≤ 1023 }
    ensures { result ≡ first start }
{
    Counters {
        at: start as u16,
        ..Counters::default()
    }
}

// No operand, and no node.
fn nothing(nodes: &mut [u16], c: Counters) -> OperandStep
    ensures { NothingTold nodes.old nodes.new c result }
{
    clear_behind(nodes, 0);
    OperandStep {
        operand: None,
        counters: Counters { nodes: 0, ..c },
    }
}
