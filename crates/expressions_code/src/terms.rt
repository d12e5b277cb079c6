// Terms, expressions and the climb over levels: `parse_prefix`, `parse_expression` and `parse_expression_from` call each other.
ghost use Rattle.std.specs.Prelude.{◌≡◌};
ghost use Rattle.names.specs.Tokens.{token_at};
ghost use Rattle.records.specs.Rooms.{NodeRoom};
ghost use Rattle.expressions_code.specs.Terms.{OperatedBy, PrefixBy, ExpressionBy, BehindBy, ClimbBy, CloseBy, unary_term, plus_term, group_term};

use crate::leaves::parse_leaf;
use crate::levels::{binary_operator, precedence, unary_operator};
use crate::reports::{expected, too_deep, unclosed};
use expressions::Source;
use names::{Token, kinds};
use records::{ABSENT, DiagnosticKind, Node, NodeKind, Progress, Span, plain, put_counted, widen};

// Why a term is not read: it failed and that is told, or none stands there.
#[derive(Clone, Copy, PartialEq, Eq)]
pub enum TermError {
    Reported,
    Absent,
}

// Behind the expression of a group, whose tree begins at the node `first`: the parenthesis closes it and widens its root, or it is told.
fn close_group(
    source: &Source,
    nodes: &mut [u16],
    out: &mut Progress,
    first: u16,
    token: Token,
) -> Result<Span, TermError>
    requires { NodeRoom source.now.tokens.now nodes.old out.old.counters 1 0 1 }
    ensures lent { out.new.diagnostics.ghost_name ≡ out.old.diagnostics.ghost_name }
    ensures told { CloseBy source.now nodes.old out.old nodes.new out.new first token result }
{
    let Some(t) = source.next_of_kind(&mut out.counters, kinds::RIGHT_PAREN) else {
        return unclosed(out, first, token);
    };
    let span = Span {
        start: token.start,
        end: t.end,
    };
    widen(nodes, out.counters.nodes - 1, span);
    Ok(span)
}

// A term, with at most `room` terms open in it.
#[cycle(terms)]
#[tactic(auto, using(names::specs::Places::live))]
fn parse_prefix(
    source: &Source,
    nodes: &mut [u16],
    out: &mut Progress,
    room: usize,
) -> Result<Span, TermError>
    requires { NodeRoom source.now.tokens.now nodes.old out.old.counters 0 0 1 }
    ensures lent { out.new.diagnostics.ghost_name ≡ out.old.diagnostics.ghost_name }
    ensures told { PrefixBy source.now nodes.old out.old nodes.new out.new room result }
{
    if room == 0 {
        return too_deep(source, out);
    }
    let t = source.peek(&out.counters).ok_or(TermError::Absent)?;
    let less = room - 1;
    match t.kind {
        kinds::MINUS | kinds::TILDE => {
            out.counters.step_over(t);
            parse_unary(source, nodes, out, t, less)
        }
        kinds::PLUS => {
            out.counters.step_over(t);
            parse_plus(source, nodes, out, t, less)
        }
        kinds::LEFT_PAREN => {
            out.counters.step_over(t);
            parse_group(source, nodes, out, t, less)
        }
        _ => parse_leaf(source, nodes, out, t),
    }
}

// Behind a minus or a tilde.
#[cycle(terms)]
#[tactic(auto, using(crate::proofs::terms::Returns::read_on))]
fn parse_unary(
    source: &Source,
    nodes: &mut [u16],
    out: &mut Progress,
    token: Token,
    room: usize,
) -> Result<Span, TermError>
    requires { NodeRoom source.now.tokens.now nodes.old out.old.counters 0 1 2 }
    ensures lent { out.new.diagnostics.ghost_name ≡ out.old.diagnostics.ghost_name }
    ensures told { BehindBy (unary_term room token) source.now nodes.old out.old nodes.new out.new result }
{
    let read = parse_prefix(source, nodes, out, room);
    let term = expected(out, read, token)?;
    let span = Span {
        start: token.start,
        end: term.end,
    };
    let unary = Node {
        kind: u16::from(NodeKind::Unary),
        detail: unary_operator(token.kind),
        left: out.counters.nodes - 1,
        right: ABSENT,
        span,
        value: 0,
    };
    put_counted(nodes, &mut out.counters, unary);
    Ok(span)
}

// Behind a plus, which is no unary operator: the term is read all the same.
#[cycle(terms)]
fn parse_plus(
    source: &Source,
    nodes: &mut [u16],
    out: &mut Progress,
    token: Token,
    room: usize,
) -> Result<Span, TermError>
    requires { NodeRoom source.now.tokens.now nodes.old out.old.counters 0 1 2 }
    ensures lent { out.new.diagnostics.ghost_name ≡ out.old.diagnostics.ghost_name }
    ensures told { BehindBy (plus_term room token) source.now nodes.old out.old nodes.new out.new result }
{
    let read = parse_prefix(source, nodes, out, room);
    out.raise(plain(
        DiagnosticKind::PlusIsNotAUnaryOperator,
        Span::from(token),
        read.unwrap_or_default(),
    ));
    read.or(Err(TermError::Reported))
}

// Behind the parenthesis of a group.
#[cycle(terms)]
fn parse_group(
    source: &Source,
    nodes: &mut [u16],
    out: &mut Progress,
    token: Token,
    room: usize,
) -> Result<Span, TermError>
    requires { NodeRoom source.now.tokens.now nodes.old out.old.counters 0 1 2 }
    ensures lent { out.new.diagnostics.ghost_name ≡ out.old.diagnostics.ghost_name }
    ensures told { BehindBy (group_term room token) source.now nodes.old out.old nodes.new out.new result }
{
    let first = out.counters.nodes;
    let read = parse_expression(source, nodes, out, room);
    expected(out, read, token)?;
    close_group(source, nodes, out, first, token)
}

// An expression: a term, and the climb from it.
#[cycle(terms)]
pub(crate) fn parse_expression(
    source: &Source,
    nodes: &mut [u16],
    out: &mut Progress,
    room: usize,
) -> Result<Span, TermError>
    requires { NodeRoom source.now.tokens.now nodes.old out.old.counters 0 0 1 }
    ensures lent { out.new.diagnostics.ghost_name ≡ out.old.diagnostics.ghost_name }
    ensures told { ExpressionBy source.now nodes.old out.old nodes.new out.new room result }
{
    let term = parse_prefix(source, nodes, out, room)?;
    Ok(parse_expression_from(source, nodes, out, term, 1, room))
}

// The climb from a left side, the tree of the last records, over operators of at least a level: its tree's span.
#[cycle(terms)]
pub(crate) fn parse_expression_from(
    source: &Source,
    nodes: &mut [u16],
    out: &mut Progress,
    left: Span,
    minimum: u8,
    room: usize,
) -> Span
    requires { NodeRoom source.now.tokens.now nodes.old out.old.counters 1 0 0 }
    ensures lent { out.new.diagnostics.ghost_name ≡ out.old.diagnostics.ghost_name }
    ensures told { ClimbBy source.now nodes.old out.old nodes.new out.new left minimum room result }
{
    let mut span = left;
    // No `for`: each turn reads on from where the last one ended, and the callee says whether it goes on.
    while let Some(t) = source.peek(&out.counters) {
        if precedence(t.kind) < minimum {
            break;
        }
        let Ok(longer) = parse_operated(source, nodes, out, span, room, t) else {
            break;
        };
        span = longer;
    }
    span
}

// One operator of the climb, which stands at the cursor: the longer left side; or no term is read behind the operator, and the climb ends.
#[cycle(terms)]
#[tactic(auto, using(names::specs::Places::live, expressions::specs::Levels::precedence_most, crate::proofs::terms::Returns::read_on, crate::proofs::terms::Returns::read_on_some))]
fn parse_operated(
    source: &Source,
    nodes: &mut [u16],
    out: &mut Progress,
    left: Span,
    room: usize,
    t: Token,
) -> Result<Span, TermError>
    requires { NodeRoom source.now.tokens.now nodes.old out.old.counters 1 0 0 × (token_at source.now.tokens.now out.old.counters.at ≡ Some t) }
    ensures lent { out.new.diagnostics.ghost_name ≡ out.old.diagnostics.ghost_name }
    ensures told { OperatedBy source.now nodes.old out.old nodes.new out.new left room t result }
{
    let before = out.counters.nodes - 1;
    out.counters.step_over(t);
    let read = parse_prefix(source, nodes, out, room);
    let term = expected(out, read, t)?;
    let above = precedence(t.kind) + 1;
    let right = parse_expression_from(source, nodes, out, term, above, room);
    let whole = Span {
        start: left.start,
        end: right.end,
    };
    let binary = Node {
        kind: u16::from(NodeKind::Binary),
        detail: binary_operator(t.kind),
        left: before,
        right: out.counters.nodes - 1,
        span: whole,
        value: 0,
    };
    put_counted(nodes, &mut out.counters, binary);
    Ok(whole)
}
