// An expression as an operand: an absolute address, or the displacement of a base.
ghost use Rattle.std.specs.Prelude.{◌≡◌, ◌<◌, Some};
ghost use Rattle.records.specs.Rooms.{Room};
ghost use Rattle.operand.specs.Operand.{finish_expression_operand, parse_expression_operand, no_expression, displaced_or_absolute};
ghost use Rattle.operand_code.specs.Operands.{FirstRoom, OperandBy};
ghost use Rattle.operand_code.specs.Absolutes.{absolute_record, FailBy, OpeningTold, TreeBy};

use crate::bases::{Opening, parse_base_and_index};
use crate::expressed::expression_at;
use crate::steps::{last_tree, plain_operand};
use crate::suffixes::size_behind;
use expressions::Source;
use expressions_code::TermError;
use names::kinds;
use operand::{BaseRegister, Form, OperandRecord};
use records::{Counters, Progress, Span, operand_expected, unexpected_token_in_operand};

fn absolute(c: Counters, span: Span, size: u8) -> OperandRecord
    requires { 0 < c.nodes }
    ensures { result ≡ absolute_record c span.start span.end size }
{
    plain_operand(
        Form::Absolute,
        span,
        Some(last_tree(c, size)),
        BaseRegister::Omitted,
    )
}

// An absolute address, and its size.
pub(crate) fn finish_expression_operand(
    source: &Source,
    out: &mut Progress,
    value: Span,
) -> OperandRecord
    requires { Room source.now.tokens.now out.old.counters 1 1 }
    ensures lent { out.new.diagnostics.ghost_name ≡ out.old.diagnostics.ghost_name }
    ensures told { TreeBy (λ e. finish_expression_operand source.now.setting e) source.now out.old out.new value (Some result) }
{
    let x = size_behind(source, out, value);
    absolute(out.counters, source.span_to(x.span.end), x.size)
}

// The parenthesis behind an expression, which is its displacement.
pub(crate) fn opening_at(source: &Source, c: &mut Counters) -> Option<Opening>
    requires { Room source.now.tokens.now c.old 1 1 }
    ensures { OpeningTold source.now.tokens.now c.old result c.new }
{
    let paren = source.next_of_kind(c, kinds::LEFT_PAREN)?;
    let displacement = Some(last_tree(*c, 0));
    Some(Opening {
        paren,
        displacement,
    })
}

// Behind an expression: a parenthesis opens the tail of a displacement.
fn displaced_or_absolute(source: &Source, out: &mut Progress, value: Span) -> Option<OperandRecord>
    requires { Room source.now.tokens.now out.old.counters 1 1 }
    ensures lent { out.new.diagnostics.ghost_name ≡ out.old.diagnostics.ghost_name }
    ensures told { TreeBy (λ e. displaced_or_absolute source.now.setting e) source.now out.old out.new value result }
{
    let Some(opening) = opening_at(source, &mut out.counters) else {
        return Some(finish_expression_operand(source, out, value));
    };
    parse_base_and_index(source, out, opening)
}

// No expression stands at the cursor.
fn no_expression(source: &Source, out: &mut Progress) -> Option<OperandRecord>
    requires { Room source.now.tokens.now out.old.counters 0 1 }
    ensures lent { out.new.diagnostics.ghost_name ≡ out.old.diagnostics.ghost_name }
    ensures told { FailBy (no_expression source.now.setting) source.now out.old out.new result }
{
    match source.peek(&out.counters) {
        Some(t) => out.raise(unexpected_token_in_operand(t)),
        None => out.raise(operand_expected(Span::empty(source.setting.start))),
    }
    None
}

pub(crate) fn parse_expression_operand(
    source: &Source,
    nodes: &mut [u16],
    out: &mut Progress,
) -> Option<OperandRecord>
    requires { FirstRoom source.now nodes.old out.old }
    ensures lent { out.new.diagnostics.ghost_name ≡ out.old.diagnostics.ghost_name }
    ensures told { OperandBy (parse_expression_operand source.now.setting) source.now out.old nodes.new out.new result }
{
    match expression_at(source, nodes, out) {
        Ok(span) => displaced_or_absolute(source, out, span),
        Err(TermError::Reported) => None,
        Err(TermError::Absent) => no_expression(source, out),
    }
}
