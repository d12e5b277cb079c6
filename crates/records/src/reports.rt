// Diagnostics made, and their records written.
ghost use Rattle.std.specs.Prelude.{◌≡◌, ◌*◌};
ghost use Rattle.records.specs.DiagnosticKinds;
ghost use Rattle.records.specs.Diagnostics.{diagnostic, diagnostic_record, plain, malformed_operand, expression_expected, operand_expected, unclosed_parenthesis, unexpected_token_in_operand};
ghost use Rattle.records.specs.Spans.{span_of};
ghost use Rattle.records.specs.Problems;
ghost use Rattle.records.specs.Shapes;
ghost use Rattle.records.specs.Stores.{written};

use crate::diagnostic_kinds::DiagnosticKind;
use crate::diagnostics::Diagnostic;
use crate::problems::{NO_PROBLEM, Problem};
use crate::shapes::{NO_SHAPE, OperandShape};
use crate::spans::Span;
use crate::stores::write;
use names::Token;

// A diagnostic that points at no other span. Its numbers may be any.
pub fn diagnostic(kind: u16, shape: u16, problem: u16, span: Span, text: Span) -> Diagnostic
    ensures { result ≡ diagnostic kind shape problem span text }
{
    Diagnostic {
        kind,
        shape,
        problem,
        span,
        text,
        related: Span::default(),
        has_related: 0,
    }
}

// A diagnostic of a kind that has no shape and no problem.
pub fn plain(kind: DiagnosticKind, span: Span, text: Span) -> Diagnostic
    ensures { result ≡ plain (DiagnosticKinds.number kind) span text }
{
    diagnostic(u16::from(kind), NO_SHAPE, NO_PROBLEM, span, text)
}

// A malformed operand.
pub fn malformed(shape: OperandShape, problem: Problem, span: Span, text: Span) -> Diagnostic
    ensures { result ≡ malformed_operand (Shapes.number shape) (Problems.number problem) span text }
{
    let kind = u16::from(DiagnosticKind::MalformedOperand);
    diagnostic(kind, u16::from(shape), u16::from(problem), span, text)
}

// An expression was expected behind this token.
pub fn expression_expected(after: Token) -> Diagnostic
    ensures { result ≡ expression_expected (span_of after) }
{
    plain(
        DiagnosticKind::ExpressionExpected,
        Span::empty(after.end),
        Span::from(after),
    )
}

// An operand was expected there.
pub fn operand_expected(at: Span) -> Diagnostic
    ensures { result ≡ operand_expected at }
{
    plain(DiagnosticKind::OperandExpected, at, Span::default())
}

// A parenthesis is never closed.
pub fn unclosed_parenthesis(paren: Token) -> Diagnostic
    ensures { result ≡ unclosed_parenthesis (span_of paren) }
{
    plain(
        DiagnosticKind::UnclosedParenthesis,
        Span::from(paren),
        Span::default(),
    )
}

// Nothing in an operand goes on with this token, which is quoted.
pub fn unexpected_token_in_operand(token: Token) -> Diagnostic
    ensures { result ≡ unexpected_token_in_operand (span_of token) }
{
    let span = Span::from(token);
    plain(DiagnosticKind::UnexpectedTokenInOperand, span, span)
}

// Writes the diagnostic record d, where it fits.
#[tactic(auto, unfolding(crate::specs::Diagnostics::diagnostic_record))]
pub fn push_diagnostic(diagnostics: &mut [u16], d: u16, x: Diagnostic)
    ensures { diagnostics.new ≡ written diagnostics.old (10 * d) (diagnostic_record x) }
{
    let record = [
        x.kind,
        x.shape,
        x.problem,
        x.span.start,
        x.span.end,
        x.text.start,
        x.text.end,
        x.related.start,
        x.related.end,
        x.has_related,
    ];
    write(diagnostics, 10 * usize::from(d), &record);
}
