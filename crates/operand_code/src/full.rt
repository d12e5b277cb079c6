// The registers of a full index, and the operand that they make.
ghost use Rattle.std.specs.Prelude.{◌≡◌};
ghost use Rattle.records.specs.Rooms.{Room};
ghost use Rattle.records.specs.Shapes;
ghost use Rattle.operand.specs.Operand.{after_base_register, no_base, parse_base_and_index_registers, parse_full_index, with_index, comma_and_index};
ghost use Rattle.names.specs.Places.{place};
ghost use Rattle.operand_code.specs.Lookahead.{NextBy, base_at};
ghost use Rattle.operand_code.specs.Told.{ReadBy};
ghost use Rattle.operand_code.specs.Operands.{TailBy};

use crate::bases::Opening;
use crate::indexes::parse_index_register;
use crate::lookahead::{base_at, is_an_index_at};
use crate::malformed::{expect_close, stepped_over};
use crate::steps::indexed;
use expressions::Source;
use names::kinds;
use operand::{BaseRegister, Form, OperandRecord, Registers};
use records::{Counters, OperandShape, Problem, Progress};

// The index that stands at the cursor, behind this base.
fn with_index(
    source: &Source,
    out: &mut Progress,
    shape: OperandShape,
    base: BaseRegister,
) -> Option<Registers>
    requires { Room source.now.tokens.now out.old.counters 0 1 }
    ensures lent { out.new.diagnostics.ghost_name ≡ out.old.diagnostics.ghost_name }
    ensures told { ReadBy (with_index source.now.setting (Shapes.number shape) base) source.now out.old out.new result }
{
    let x = parse_index_register(source, out, shape)?;
    Some(Registers {
        base,
        index: Some(x),
    })
}

// A comma and the index behind it, or neither.
fn comma_and_index(
    source: &Source,
    out: &mut Progress,
    shape: OperandShape,
    base: BaseRegister,
) -> Option<Registers>
    requires { Room source.now.tokens.now out.old.counters 0 1 }
    ensures lent { out.new.diagnostics.ghost_name ≡ out.old.diagnostics.ghost_name }
    ensures told { ReadBy (comma_and_index source.now.setting (Shapes.number shape) base) source.now out.old out.new result }
{
    if source
        .next_of_kind(&mut out.counters, kinds::COMMA)
        .is_none()
    {
        return Some(Registers { base, index: None });
    }
    with_index(source, out, shape, base)
}

// Behind a base.
fn after_base_register(
    source: &Source,
    out: &mut Progress,
    shape: OperandShape,
    base: BaseRegister,
) -> Option<Registers>
    requires { Room source.now.tokens.now out.old.counters 0 1 }
    ensures lent { out.new.diagnostics.ghost_name ≡ out.old.diagnostics.ghost_name }
    ensures told { ReadBy (after_base_register source.now.setting (Shapes.number shape) base) source.now out.old out.new result }
{
    if is_an_index_at(source, out.counters.at + 1) {
        return comma_and_index(source, out, shape, base);
    }
    Some(Registers { base, index: None })
}

// An index without a base.
fn no_base(source: &Source, out: &mut Progress, shape: OperandShape) -> Option<Registers>
    requires { Room source.now.tokens.now out.old.counters 0 1 }
    ensures lent { out.new.diagnostics.ghost_name ≡ out.old.diagnostics.ghost_name }
    ensures told { ReadBy (no_base source.now.setting (Shapes.number shape)) source.now out.old out.new result }
{
    if is_an_index_at(source, out.counters.at) {
        return with_index(source, out, shape, BaseRegister::Omitted);
    }
    stepped_over(source, out, shape, Problem::BaseOrIndexMissing);
    None
}

// The base at the cursor, stepped over.
fn next_base(source: &Source, c: &mut Counters) -> Option<BaseRegister>
    requires { Room source.now.tokens.now c.old 0 1 }
    ensures { NextBy (base_at source.now.setting (place source.now.line.now source.now.tokens.now) c.old.at) source.now.line.now source.now.tokens.now c.old result c.new }
{
    let t = source.peek(c)?;
    let base = base_at(source, c.at, t)?;
    c.step_over(t);
    Some(base)
}

pub(crate) fn parse_base_and_index_registers(
    source: &Source,
    out: &mut Progress,
    shape: OperandShape,
) -> Option<Registers>
    requires { Room source.now.tokens.now out.old.counters 0 1 }
    ensures lent { out.new.diagnostics.ghost_name ≡ out.old.diagnostics.ghost_name }
    ensures told { ReadBy (parse_base_and_index_registers source.now.setting (Shapes.number shape)) source.now out.old out.new result }
{
    match next_base(source, &mut out.counters) {
        Some(base) => after_base_register(source, out, shape, base),
        None => no_base(source, out, shape),
    }
}

pub(crate) fn parse_full_index(
    source: &Source,
    out: &mut Progress,
    opening: Opening,
) -> Option<OperandRecord>
    requires { Room source.now.tokens.now out.old.counters 0 1 }
    ensures lent { out.new.diagnostics.ghost_name ≡ out.old.diagnostics.ghost_name }
    ensures told { TailBy (λ y. parse_full_index source.now.setting opening.paren y) source.now out.old out.new opening.displacement result }
{
    let x = parse_base_and_index_registers(source, out, OperandShape::Index)?;
    let end = expect_close(source, out, opening.paren, OperandShape::Index)?;
    let span = source.span_to(end);
    let d = opening.displacement;
    Some(indexed(Form::FullIndex, span, d, x.base, x.index))
}
