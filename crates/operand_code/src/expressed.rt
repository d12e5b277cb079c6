// Expressions of an operand, for which there is always room.
ghost use Rattle.std.specs.Prelude.{◌≡◌};
ghost use Rattle.records.specs.Rooms.{NodeRoom};
ghost use Rattle.records.specs.Spans.{span_of};
ghost use Rattle.records.specs.Diagnostics.{expression_expected};
ghost use Rattle.operand_code.specs.Absolutes.{OrBy};
ghost use Rattle.operand_code.specs.Told.{ExpressionTells, FromTells};

use expressions::Source;
use expressions_code::{TermError, expression, expression_from};
use names::Token;
use records::{Progress, Span, expression_expected};

pub(crate) fn expression_at(
    source: &Source,
    nodes: &mut [u16],
    out: &mut Progress,
) -> Result<Span, TermError>
    requires { NodeRoom source.now.tokens.now nodes.old out.old.counters 0 0 1 }
    ensures lent { out.new.diagnostics.ghost_name ≡ out.old.diagnostics.ghost_name }
    ensures told { ExpressionTells source.now nodes.old out.old nodes.new out.new result }
{
    expression(source, nodes, out).unwrap_or(Err(TermError::Absent))
}

// An expression, or it is told that one was expected behind this token.
pub(crate) fn expression_or(
    source: &Source,
    nodes: &mut [u16],
    out: &mut Progress,
    after: Token,
) -> Option<Span>
    requires { NodeRoom source.now.tokens.now nodes.old out.old.counters 0 0 1 }
    ensures lent { out.new.diagnostics.ghost_name ≡ out.old.diagnostics.ghost_name }
    ensures told { OrBy (expression_expected (span_of after)) source.now nodes.old out.old nodes.new out.new result }
{
    match expression_at(source, nodes, out) {
        Ok(span) => Some(span),
        Err(TermError::Reported) => None,
        Err(TermError::Absent) => {
            out.raise(expression_expected(after));
            None
        }
    }
}

// The expression that goes on from a group, whose tree is the last that was read.
pub(crate) fn expression_behind(
    source: &Source,
    nodes: &mut [u16],
    out: &mut Progress,
    group: Span,
) -> Span
    requires { NodeRoom source.now.tokens.now nodes.old out.old.counters 1 0 1 }
    ensures lent { out.new.diagnostics.ghost_name ≡ out.old.diagnostics.ghost_name }
    ensures told { FromTells source.now nodes.old out.old nodes.new out.new group result }
{
    expression_from(source, nodes, out, group).unwrap_or(group)
}
