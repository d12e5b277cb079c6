// What is malformed, and the end of a parenthesis. A span runs from the operand's start to where the last token ended.
ghost use Rattle.std.specs.Prelude.{◌<◌, ◌≡◌};
ghost use Rattle.records.specs.Rooms.{Room};
ghost use Rattle.records.specs.Spans.{span, no_span, span_of};
ghost use Rattle.records.specs.Problems;
ghost use Rattle.records.specs.Shapes;
ghost use Rattle.records.specs.Diagnostics.{malformed_operand, malformed_open};
ghost use Rattle.operand.specs.Operand.{expect_close};
ghost use Rattle.operand_code.specs.Told.{RaisedBy, RaisedOverBy, ReadBy};

use expressions::Source;
use names::{Token, kinds};
use records::{Diagnostic, OperandShape, Problem, Progress, Span};

// The shape and the problem, with the part of the line that is quoted.
fn quoting(source: &Source, out: &mut Progress, shape: OperandShape, problem: Problem, text: Span)
    requires { out.old.counters.diagnostics < 65535 }
    ensures lent { out.new.diagnostics.ghost_name ≡ out.old.diagnostics.ghost_name }
    ensures told { RaisedBy out.old out.new (malformed_operand (Shapes.number shape) (Problems.number problem) (span source.now.setting.start out.old.counters.end) text) }
{
    let span = source.span_to(out.counters.end);
    out.raise(records::malformed(shape, problem, span, text));
}

// Nothing is quoted.
pub(crate) fn malformed(source: &Source, out: &mut Progress, shape: OperandShape, problem: Problem)
    requires { out.old.counters.diagnostics < 65535 }
    ensures lent { out.new.diagnostics.ghost_name ≡ out.old.diagnostics.ghost_name }
    ensures told { RaisedBy out.old out.new (malformed_operand (Shapes.number shape) (Problems.number problem) (span source.now.setting.start out.old.counters.end) no_span) }
{
    quoting(source, out, shape, problem, Span::default());
}

// The token is not an address register; it is quoted.
pub(crate) fn not_an_address_register(
    source: &Source,
    out: &mut Progress,
    shape: OperandShape,
    token: Token,
)
    requires { out.old.counters.diagnostics < 65535 }
    ensures lent { out.new.diagnostics.ghost_name ≡ out.old.diagnostics.ghost_name }
    ensures told { RaisedBy out.old out.new (malformed_operand (Shapes.number shape) Problems.not_an_address_register (span source.now.setting.start out.old.counters.end) (span_of token)) }
{
    let problem = Problem::NotAnAddressRegister;
    quoting(source, out, shape, problem, Span::from(token));
}

// The parenthesis `paren` is never closed.
pub(crate) fn unclosed(
    source: &Source,
    out: &mut Progress,
    paren: Token,
    shape: OperandShape,
    problem: Problem,
)
    requires { out.old.counters.diagnostics < 65535 }
    ensures lent { out.new.diagnostics.ghost_name ≡ out.old.diagnostics.ghost_name }
    ensures told { RaisedBy out.old out.new (malformed_open (Shapes.number shape) (Problems.number problem) (span source.now.setting.start out.old.counters.end) (span_of paren)) }
{
    let span = source.span_to(out.counters.end);
    out.raise(Diagnostic {
        related: Span::from(paren),
        has_related: 1,
        ..records::malformed(shape, problem, span, Span::default())
    });
}

// Malformed, behind whatever stands at the cursor.
pub(crate) fn stepped_over(
    source: &Source,
    out: &mut Progress,
    shape: OperandShape,
    problem: Problem,
)
    requires { Room source.now.tokens.now out.old.counters 0 1 }
    ensures lent { out.new.diagnostics.ghost_name ≡ out.old.diagnostics.ghost_name }
    ensures told { RaisedOverBy source.now out.old out.new (λ l. malformed_operand (Shapes.number shape) (Problems.number problem) (span source.now.setting.start l) no_span) }
{
    if let Some(t) = source.peek(&out.counters) {
        out.counters.step_over(t);
    }
    malformed(source, out, shape, problem);
}

// Where the parenthesis that stands at the cursor ends; or `paren` is never closed.
pub(crate) fn expect_close(
    source: &Source,
    out: &mut Progress,
    paren: Token,
    shape: OperandShape,
) -> Option<u16>
    requires { Room source.now.tokens.now out.old.counters 0 1 }
    ensures lent { out.new.diagnostics.ghost_name ≡ out.old.diagnostics.ghost_name }
    ensures told { ReadBy (expect_close source.now.setting paren (Shapes.number shape)) source.now out.old out.new result }
{
    let Some(t) = source.next_of_kind(&mut out.counters, kinds::RIGHT_PAREN) else {
        unclosed(source, out, paren, shape, Problem::ParenMissing);
        return None;
    };
    Some(t.end)
}
