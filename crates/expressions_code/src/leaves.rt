// Terms of one token, and the nodes of terms.
ghost use Rattle.std.specs.Prelude.{◌≡◌, ◌<◌};
ghost use Rattle.names.specs.Places.{text_of};
ghost use Rattle.names.specs.Registers.{reserved};
ghost use Rattle.expressions.specs.Expressions.{number_term, named, leaf_term};
ghost use Rattle.records.specs.NodeKinds;
ghost use Rattle.records.specs.Stores.{PutAsks};
ghost use Rattle.expressions_code.specs.Terms.{LeafAsks, LeafTold, SymbolTold, ReaderBy, TokenBy};

use crate::numbers::number_value;
use crate::reports::report;
use crate::terms::TermError;
use expressions::Source;
use names::{Token, kinds};
use records::{
    ABSENT, Counters, DiagnosticKind, Node, NodeKind, Progress, Span, plain, put_counted,
};

// A node without children, and the term that it is.
fn read_leaf(
    nodes: &mut [u16],
    c: &mut Counters,
    kind: NodeKind,
    detail: u16,
    span: Span,
    value: u64,
) -> Result<Span, TermError>
    requires { PutAsks nodes.old c.old.nodes }
    ensures { LeafTold nodes.old nodes.new c.old (NodeKinds.number kind) detail span value result c.new }
{
    let leaf = Node {
        kind: u16::from(kind),
        detail,
        left: ABSENT,
        right: ABSENT,
        span,
        value,
    };
    put_counted(nodes, c, leaf);
    Ok(span)
}

// A symbol's term: its name is its own span.
fn symbol_leaf(nodes: &mut [u16], c: &mut Counters, span: Span) -> Result<Span, TermError>
    requires { PutAsks nodes.old c.old.nodes }
    ensures { SymbolTold nodes.old nodes.new c.old span result c.new }
{
    read_leaf(nodes, c, NodeKind::Symbol, 0, span, span.packed())
}

// A number's term, behind its token.
fn number_leaf(
    source: &Source,
    nodes: &mut [u16],
    out: &mut Progress,
    token: Token,
) -> Result<Span, TermError>
    requires { LeafAsks nodes.old out.old.counters }
    ensures lent { out.new.diagnostics.ghost_name ≡ out.old.diagnostics.ghost_name }
    ensures told { ReaderBy (number_term token (text_of source.now.line.now token.start token.end)) nodes.old out.old nodes.new out.new result }
{
    let value = number_value(source, out, token);
    read_leaf(
        nodes,
        &mut out.counters,
        NodeKind::Number,
        token.detail,
        Span::from(token),
        value,
    )
}

// A name's term, behind its token: a reserved name is none.
fn name_leaf(
    source: &Source,
    nodes: &mut [u16],
    out: &mut Progress,
    token: Token,
) -> Result<Span, TermError>
    requires { LeafAsks nodes.old out.old.counters }
    ensures lent { out.new.diagnostics.ghost_name ≡ out.old.diagnostics.ghost_name }
    ensures told { ReaderBy (named token (reserved (text_of source.now.line.now token.start token.end))) nodes.old out.old nodes.new out.new result }
{
    let span = Span::from(token);
    if names::is_reserved_name(source.text_of(token)) {
        return report(out, plain(DiagnosticKind::RegisterInExpression, span, span));
    }
    symbol_leaf(nodes, &mut out.counters, span)
}

// A term of one token, which stands at the cursor.
pub(crate) fn parse_leaf(
    source: &Source,
    nodes: &mut [u16],
    out: &mut Progress,
    token: Token,
) -> Result<Span, TermError>
    requires { LeafAsks nodes.old out.old.counters × (out.old.counters.at < 1023) }
    ensures lent { out.new.diagnostics.ghost_name ≡ out.old.diagnostics.ghost_name }
    ensures told { TokenBy leaf_term source.now token nodes.old out.old nodes.new out.new result }
{
    // Each by itself: the four counters as one word would have to wait for the one that was just written (docs/SPEED.md).
    let at = out.counters.at;
    let end = out.counters.end;
    let span = Span::from(token);
    out.counters.step_over(token);
    match token.kind {
        kinds::STAR => read_leaf(
            nodes,
            &mut out.counters,
            NodeKind::CurrentAddress,
            0,
            span,
            0,
        ),
        kinds::NUMBER => number_leaf(source, nodes, out, token),
        kinds::STRING_LITERAL => read_leaf(
            nodes,
            &mut out.counters,
            NodeKind::Literal,
            token.detail,
            span,
            span.packed(),
        ),
        kinds::IDENTIFIER => name_leaf(source, nodes, out, token),
        kinds::LOCAL_IDENTIFIER => symbol_leaf(nodes, &mut out.counters, span),
        kinds::ERROR => Err(TermError::Reported),
        _ => {
            out.counters.at = at;
            out.counters.end = end;
            Err(TermError::Absent)
        }
    }
}
