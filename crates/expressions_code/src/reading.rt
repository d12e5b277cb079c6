// The public functions: an expression at the cursor, and one that goes on from a left side.
ghost use Rattle.std.specs.Prelude.{◌≡◌};
ghost use Rattle.expressions_code.specs.Reading.{RoomTold, ExpressionPromised, FromPromised};

use crate::terms::{TermError, parse_expression, parse_expression_from};
use expressions::Source;
use records::{Counters, MOST_COUNTED, MOST_TOKENS, Progress, Span, clear_nodes, widen};

// Whether there is room for a reading from these counters on, with at least `least` nodes.
fn has_room(source: &Source, nodes: &[u16], c: Counters, least: u16) -> bool
    ensures { RoomTold source.now.tokens.now nodes.now c least result }
{
    let tokens = source.tokens.len() / 4;
    let at = usize::from(c.at);
    let left = tokens.saturating_sub(at);
    let most = usize::from(c.nodes) + left;
    let counted = usize::from(c.diagnostics) + left;
    tokens <= MOST_TOKENS
        && at <= tokens
        && least <= c.nodes
        && counted < MOST_COUNTED
        && most <= MOST_COUNTED
        && 10 * most <= nodes.len()
}

// An expression, where there is room for a reading. The records that failed terms have left behind are cleared: they are among as many as
// there are consumed tokens.
pub fn expression(
    source: &Source,
    nodes: &mut [u16],
    out: &mut Progress,
) -> Option<Result<Span, TermError>>
    ensures lent { out.new.diagnostics.ghost_name ≡ out.old.diagnostics.ghost_name }
    ensures told { ExpressionPromised source.now nodes.old out.old nodes.new out.new result }
{
    let c = out.counters;
    if !has_room(source, nodes, c, 0) {
        return None;
    }
    let room = usize::from(source.setting.limit);
    let read = parse_expression(source, nodes, out, room);
    let e = out.counters;
    clear_nodes(nodes, e.nodes, c.nodes + (e.at - c.at));
    Some(read)
}

// The expression whose first term is a group: the tree that the last records hold, with the group's span.
pub fn expression_from(
    source: &Source,
    nodes: &mut [u16],
    out: &mut Progress,
    group: Span,
) -> Option<Span>
    ensures lent { out.new.diagnostics.ghost_name ≡ out.old.diagnostics.ghost_name }
    ensures told { FromPromised source.now nodes.old out.old nodes.new out.new group result }
{
    let c = out.counters;
    if !has_room(source, nodes, c, 1) {
        return None;
    }
    widen(nodes, c.nodes - 1, group);
    let room = usize::from(source.setting.limit);
    let span = parse_expression_from(source, nodes, out, group, 1, room);
    let e = out.counters;
    clear_nodes(nodes, e.nodes, c.nodes + (e.at - c.at));
    Some(span)
}
