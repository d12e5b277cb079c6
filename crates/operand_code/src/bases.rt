// A base and an index between parentheses, with a displacement or without.
ghost use Rattle.std.specs.Prelude.{◌≡◌, ◌≤◌, ◌<◌};
ghost use Rattle.records.specs.Rooms.{Room};
ghost use Rattle.records.specs.Shapes;
ghost use Rattle.operand.specs.FormNumbers;
ghost use Rattle.operand.specs.Operands.{Displacement};
ghost use Rattle.operand.specs.Operand.{base_shape, closed_base, closed_counter, parse_base_and_index, close_index, base_and_index};
ghost use Rattle.operand.specs.Forms.{sized_of};
ghost use Rattle.operand_code.specs.Operands.{BaseBy, IndexedBy};
ghost use Rattle.operand_code.specs.Bases.{base_register, unsuppressed_base, open_shape, index_shape, index_form, closed, behind_base};
ghost use Rattle.operand_code.specs.Told.{token_text};

use crate::indexes::parse_index_register;
use crate::lookahead::{address_register_at, program_counter_at};
use crate::malformed::{expect_close, malformed, not_an_address_register, unclosed};
use crate::steps::{indexed, plain_operand};
use expressions::Source;
use names::{Token, kinds};
use operand::{BaseRegister, Form, IndexRegister, OperandRecord, Register, Sized};
use records::{OperandShape, Problem, Progress};

// A base where none may be suppressed.
#[derive(Clone, Copy)]
pub enum Base {
    Address(Register),
    ProgramCounter,
}

impl From<Base> for BaseRegister {
    ghost from_gives = { λ x b. b ≡ base_register x };

    #[tactic(auto, unfolding(crate::specs::Bases::base_register))]
    fn from(x: Base) -> BaseRegister
        ensures { result ≡ base_register x }
    {
        match x {
            Base::Address(r) => BaseRegister::Address(r),
            Base::ProgramCounter => BaseRegister::ProgramCounter,
        }
    }
}

// The parenthesis of a base, and the displacement that stands before it or behind it.
#[derive(Clone, Copy)]
pub struct Opening {
    pub paren: Token,
    pub displacement: Option<Sized>,
}

// The shape of an operand whose base is wrong, by whether it has a displacement.
fn base_shape(d: Option<Sized>) -> OperandShape
    ensures { (y : Displacement) → sized_of 0 y ≡ d → Shapes.number result ≡ base_shape y }
{
    match d {
        Some(_) => OperandShape::Displacement,
        None => OperandShape::Indirect,
    }
}

// The parenthesis behind an index. An index written suppressed makes it a full index.
fn close_index(
    source: &Source,
    out: &mut Progress,
    opening: Opening,
    base: Base,
    x: IndexRegister,
) -> Option<OperandRecord>
    requires { Room source.now.tokens.now out.old.counters 0 1 }
    ensures lent { out.new.diagnostics.ghost_name ≡ out.old.diagnostics.ghost_name }
    ensures told { IndexedBy (close_index source.now.setting opening.paren (index_shape base) (base_register base) x) source.now out.old out.new (index_form base) opening.displacement (base_register base) result }
{
    let end = expect_close(source, out, opening.paren, index_shape(base))?;
    let form = if x.suppressed {
        Form::FullIndex
    } else {
        index_form(base)
    };
    let span = source.span_to(end);
    let base = BaseRegister::from(base);
    Some(indexed(form, span, opening.displacement, base, Some(x)))
}

// Behind the comma: an index, and the parenthesis.
fn base_and_index(
    source: &Source,
    out: &mut Progress,
    opening: Opening,
    base: Base,
) -> Option<OperandRecord>
    requires { Room source.now.tokens.now out.old.counters 0 1 }
    ensures lent { out.new.diagnostics.ghost_name ≡ out.old.diagnostics.ghost_name }
    ensures told { IndexedBy (base_and_index source.now.setting opening.paren (index_shape base) (base_register base)) source.now out.old out.new (index_form base) opening.displacement (base_register base) result }
{
    let x = parse_index_register(source, out, index_shape(base))?;
    close_index(source, out, opening, base, x)
}

// Behind the parenthesis that closes a base alone.
fn closed_base(
    source: &Source,
    out: &mut Progress,
    d: Option<Sized>,
    register: Register,
    close: Token,
) -> OperandRecord
    requires { out.old.counters.at ≤ 1023 }
    ensures lent { out.new.diagnostics.ghost_name ≡ out.old.diagnostics.ghost_name }
    ensures told { BaseBy (λ y. closed_base source.now.setting register y close) source.now out.old out.new d (Some result) }
{
    let span = source.span_to(close.end);
    let base = BaseRegister::Address(register);
    if d.is_some() {
        return plain_operand(Form::Displacement, span, d, base);
    }
    let Some(t) = source.next_of_kind(&mut out.counters, kinds::PLUS) else {
        return plain_operand(Form::Indirect, span, d, base);
    };
    plain_operand(Form::Postincrement, source.span_to(t.end), d, base)
}

// Behind the parenthesis that closes the program counter alone.
fn closed_counter(
    source: &Source,
    out: &mut Progress,
    d: Option<Sized>,
    close: Token,
) -> Option<OperandRecord>
    requires { out.old.counters.diagnostics < 65535 }
    ensures lent { out.new.diagnostics.ghost_name ≡ out.old.diagnostics.ghost_name }
    ensures told { BaseBy (λ y. closed_counter source.now.setting y close) source.now out.old out.new d result }
{
    let shape = OperandShape::PcDisplacement;
    if d.is_none() {
        malformed(source, out, shape, Problem::TheDisplacementMissing);
        return None;
    }
    let span = source.span_to(close.end);
    let base = BaseRegister::ProgramCounter;
    Some(plain_operand(Form::PcDisplacement, span, d, base))
}

// Behind the parenthesis that closes the base.
#[tactic(auto, unfolding(crate::specs::Bases::closed))]
fn closed(
    source: &Source,
    out: &mut Progress,
    d: Option<Sized>,
    base: Base,
    close: Token,
) -> Option<OperandRecord>
    requires { Room source.now.tokens.now out.old.counters 0 1 }
    ensures lent { out.new.diagnostics.ghost_name ≡ out.old.diagnostics.ghost_name }
    ensures told { BaseBy (λ y. closed source.now.setting base y close) source.now out.old out.new d result }
{
    match base {
        Base::Address(register) => Some(closed_base(source, out, d, register, close)),
        Base::ProgramCounter => closed_counter(source, out, d, close),
    }
}

// The shape of an operand whose parenthesis never closes behind its base.
#[tactic(auto, unfolding(crate::specs::Bases::open_shape))]
fn open_shape(base: Base, d: Option<Sized>) -> OperandShape
    ensures { (y : Displacement) → sized_of 0 y ≡ d → Shapes.number result ≡ open_shape base y }
{
    match base {
        Base::Address(_) => base_shape(d),
        Base::ProgramCounter => OperandShape::PcDisplacement,
    }
}

// The shape and the form of an operand that has an index behind its base.
#[tactic(auto, unfolding(crate::specs::Bases::index_shape))]
fn index_shape(base: Base) -> OperandShape
    ensures { Shapes.number result ≡ index_shape base }
{
    match base {
        Base::Address(_) => OperandShape::Index,
        Base::ProgramCounter => OperandShape::PcIndex,
    }
}

// Apart from `index_shape`: together they would be a pair that is taken apart again.
#[tactic(auto, unfolding(crate::specs::Bases::index_form))]
fn index_form(base: Base) -> Form
    ensures { FormNumbers.number result ≡ index_form base }
{
    match base {
        Base::Address(_) => Form::Index,
        Base::ProgramCounter => Form::PcIndex,
    }
}

// Behind an address register or the program counter.
fn after_base(
    source: &Source,
    out: &mut Progress,
    opening: Opening,
    base: Base,
) -> Option<OperandRecord>
    requires { Room source.now.tokens.now out.old.counters 0 1 }
    ensures lent { out.new.diagnostics.ghost_name ≡ out.old.diagnostics.ghost_name }
    ensures told { BaseBy (λ y. behind_base source.now.setting opening.paren base y) source.now out.old out.new opening.displacement result }
{
    if let Some(t) = source.next_of_kind(&mut out.counters, kinds::RIGHT_PAREN) {
        return closed(source, out, opening.displacement, base, t);
    }
    if source
        .next_of_kind(&mut out.counters, kinds::COMMA)
        .is_some()
    {
        return base_and_index(source, out, opening, base);
    }
    let shape = open_shape(base, opening.displacement);
    unclosed(source, out, opening.paren, shape, Problem::ParenMissing);
    None
}

// The base that a token is, if it is one.
#[tactic(auto, using(crate::proofs::lookahead::Names::address_miss, names::specs::Laws::then_some_pick), unfolding(crate::specs::Bases::unsuppressed_base))]
fn unsuppressed_base(source: &Source, token: Token) -> Option<Base>
    ensures { result ≡ unsuppressed_base token (token_text source.now token) }
{
    if let Some(r) = address_register_at(source, token) {
        return Some(Base::Address(r));
    }
    program_counter_at(source, token).then_some(Base::ProgramCounter)
}

pub(crate) fn parse_base_and_index(
    source: &Source,
    out: &mut Progress,
    opening: Opening,
) -> Option<OperandRecord>
    requires { Room source.now.tokens.now out.old.counters 0 1 }
    ensures lent { out.new.diagnostics.ghost_name ≡ out.old.diagnostics.ghost_name }
    ensures told { BaseBy (λ y. parse_base_and_index source.now.setting opening.paren y) source.now out.old out.new opening.displacement result }
{
    let shape = base_shape(opening.displacement);
    let Some(t) = source.peek(&out.counters) else {
        unclosed(source, out, opening.paren, shape, Problem::BaseMissing);
        return None;
    };
    out.counters.step_over(t);
    let Some(base) = unsuppressed_base(source, t) else {
        not_an_address_register(source, out, shape, t);
        return None;
    };
    after_base(source, out, opening, base)
}
