// Terms that have failed, and what is told of them.
ghost use Rattle.std.specs.Prelude.{◌≡◌, ◌<◌};
ghost use Rattle.records.specs.Spans.{span_of};
ghost use Rattle.records.specs.Diagnostics.{unclosed_parenthesis};
ghost use Rattle.expressions_code.specs.Terms.{DeepBy, DeepAt, DepthBy, ExpectedAsks, ExpectedBy, with_nodes};

use crate::terms::TermError;
use expressions::Source;
use names::Token;
use records::{
    Diagnostic, DiagnosticKind, Progress, Span, expression_expected, plain, unclosed_parenthesis,
};

// Raises a diagnostic: the term has failed and leaves no node.
pub(crate) fn report(out: &mut Progress, x: Diagnostic) -> Result<Span, TermError>
    requires { out.old.counters.diagnostics < 65535 }
    ensures lent { out.new.diagnostics.ghost_name ≡ out.old.diagnostics.ghost_name }
    ensures told { DeepBy out.old out.new x result }
{
    out.raise(x);
    Err(TermError::Reported)
}

// What was read where a term had to stand, behind this token: that none stands there is told.
pub(crate) fn expected(
    out: &mut Progress,
    read: Result<Span, TermError>,
    token: Token,
) -> Result<Span, TermError>
    requires { ExpectedAsks out.old read }
    ensures lent { out.new.diagnostics.ghost_name ≡ out.old.diagnostics.ghost_name }
    ensures told { ExpectedBy out.old out.new read token result }
{
    match read {
        Err(TermError::Absent) => report(out, expression_expected(token)),
        _ => read,
    }
}

// More terms are open than may be: told at the token that stands at the cursor, or at the end of the last one.
pub(crate) fn too_deep(source: &Source, out: &mut Progress) -> Result<Span, TermError>
    requires { out.old.counters.diagnostics < 65535 }
    ensures lent { out.new.diagnostics.ghost_name ≡ out.old.diagnostics.ghost_name }
    ensures told { DepthBy source.now out.old out.new result }
{
    let span = source.span_at(&out.counters);
    report(
        out,
        plain(DiagnosticKind::NestingTooDeep, span, Span::default()),
    )
}

// A group that is never closed: its nodes, from `first` on, are given up.
pub(crate) fn unclosed(out: &mut Progress, first: u16, token: Token) -> Result<Span, TermError>
    requires { out.old.counters.diagnostics < 65535 }
    ensures lent { out.new.diagnostics.ghost_name ≡ out.old.diagnostics.ghost_name }
    ensures told { DeepAt (with_nodes out.old.counters first) out.old out.new (unclosed_parenthesis (span_of token)) result }
{
    out.counters.nodes = first;
    report(out, unclosed_parenthesis(token))
}
