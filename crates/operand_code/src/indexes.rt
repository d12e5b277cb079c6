// Scales and index registers.
ghost use Rattle.std.specs.Prelude.{◌≡◌, ◌<◌};
ghost use Rattle.records.specs.Rooms.{Room};
ghost use Rattle.records.specs.Shapes;
ghost use Rattle.operand.specs.Operand.{scale_of, scaled, scale_value, index_scale, index_register, parse_index_register};
ghost use Rattle.operand_code.specs.Told.{ReadBy, token_text};
ghost use Rattle.operand_code.specs.Lookahead.{NextBy, index_at};

use crate::lookahead::{register_at, suppressed_index_at};
use crate::malformed::{malformed, stepped_over};
use crate::suffixes::size_behind;
use expressions::Source;
use expressions_code::number_value;
use names::{Token, kinds};
use operand::{IndexRegister, Register};
use records::{Counters, OperandShape, Problem, Progress, Span};

#[tactic(auto, unfolding(operand::specs::Operand::scale_of))]
fn is_scale(value: u64) -> bool
    ensures { result ≡ scale_of value }
{
    matches!(value, 1 | 2 | 4 | 8)
}

// The index with its scale, once the scale's value is known. `as` loses nothing: a scale is 8 at most.
#[tactic(auto, using(crate::proofs::indexes::Returns::scale_small))]
fn scaled(
    source: &Source,
    out: &mut Progress,
    shape: OperandShape,
    x: IndexRegister,
    token: Token,
    value: u64,
) -> Option<IndexRegister>
    requires { out.old.counters.diagnostics < 65535 }
    ensures lent { out.new.diagnostics.ghost_name ≡ out.old.diagnostics.ghost_name }
    ensures told { ReadBy (scaled source.now.setting (Shapes.number shape) x token value) source.now out.old out.new result }
{
    if !is_scale(value) {
        malformed(source, out, shape, Problem::BadScale);
        return None;
    }
    Some(IndexRegister {
        scale: value as u8,
        span: Span {
            start: x.span.start,
            end: token.end,
        },
        ..x
    })
}

// Behind the number of a scale. One that has no value is no scale either.
fn index_scale_value(
    source: &Source,
    out: &mut Progress,
    shape: OperandShape,
    x: IndexRegister,
    token: Token,
) -> Option<IndexRegister>
    requires { out.old.counters.diagnostics < 65534 }
    ensures lent { out.new.diagnostics.ghost_name ≡ out.old.diagnostics.ghost_name }
    ensures told { ReadBy (scale_value source.now.setting (Shapes.number shape) x token (token_text source.now token)) source.now out.old out.new result }
{
    let value = number_value(source, out, token);
    scaled(source, out, shape, x, token, value)
}

fn index_scale(
    source: &Source,
    out: &mut Progress,
    shape: OperandShape,
    x: IndexRegister,
) -> Option<IndexRegister>
    requires { Room source.now.tokens.now out.old.counters 0 1 }
    ensures lent { out.new.diagnostics.ghost_name ≡ out.old.diagnostics.ghost_name }
    ensures told { ReadBy (index_scale source.now.setting (Shapes.number shape) x) source.now out.old out.new result }
{
    if source
        .next_of_kind(&mut out.counters, kinds::STAR)
        .is_none()
    {
        return Some(x);
    }
    let Some(t) = source.next_of_kind(&mut out.counters, kinds::NUMBER) else {
        stepped_over(source, out, shape, Problem::BadScale);
        return None;
    };
    index_scale_value(source, out, shape, x, t)
}

// Behind the index's register.
fn index_register(
    source: &Source,
    out: &mut Progress,
    shape: OperandShape,
    register: Register,
    suppressed: bool,
) -> Option<IndexRegister>
    requires { Room source.now.tokens.now out.old.counters 0 1 }
    ensures lent { out.new.diagnostics.ghost_name ≡ out.old.diagnostics.ghost_name }
    ensures told { ReadBy (index_register source.now.setting (Shapes.number shape) register suppressed) source.now out.old out.new result }
{
    let x = size_behind(source, out, register.span);
    let span = Span {
        start: register.span.start,
        end: x.span.end,
    };
    let index = IndexRegister {
        register,
        size: x.size,
        scale: 0,
        suppressed,
        span,
    };
    index_scale(source, out, shape, index)
}

// An index register, and whether it is written suppressed.
#[tactic(auto, unfolding(crate::specs::Lookahead::index_at, crate::specs::Lookahead::suppressed_or))]
fn index_at(source: &Source, token: Token, i: u16) -> Option<(Register, bool)>
    ensures { result ≡ index_at source.now.setting i token (token_text source.now token) }
{
    if let Some(r) = suppressed_index_at(source, token, i) {
        return Some((r, true));
    }
    // by `let .. else`, not by `?`: docs/DECISIONS.md, 41
    let Some(r) = register_at(source, token) else {
        return None;
    };
    Some((r, false))
}

// The index register at the cursor, stepped over. As `next_register` (lists.rt) and `next_base` (full.rt) but for what is looked up: as a closure each
// look-up would have its contract written once more.
fn next_index(source: &Source, c: &mut Counters) -> Option<(Register, bool)>
    requires { Room source.now.tokens.now c.old 0 1 }
    ensures { NextBy (index_at source.now.setting c.old.at) source.now.line.now source.now.tokens.now c.old result c.new }
{
    let t = source.peek(c)?;
    let index = index_at(source, t, c.at)?;
    c.step_over(t);
    Some(index)
}

// An index register, or what stands there is stepped over.
pub(crate) fn parse_index_register(
    source: &Source,
    out: &mut Progress,
    shape: OperandShape,
) -> Option<IndexRegister>
    requires { Room source.now.tokens.now out.old.counters 0 1 }
    ensures lent { out.new.diagnostics.ghost_name ≡ out.old.diagnostics.ghost_name }
    ensures told { ReadBy (parse_index_register source.now.setting (Shapes.number shape)) source.now out.old out.new result }
{
    let Some((register, suppressed)) = next_index(source, &mut out.counters) else {
        stepped_over(source, out, shape, Problem::IndexMissing);
        return None;
    };
    index_register(source, out, shape, register, suppressed)
}
