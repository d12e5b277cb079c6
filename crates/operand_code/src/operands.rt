// The forms of an operand, by how it begins.
ghost use Rattle.std.specs.Prelude.{◌≡◌, true, option_map};
ghost use Rattle.records.specs.Rooms.{Room};
ghost use Rattle.names.specs.Kinds;
ghost use Rattle.names.specs.Tokens.{token_at};
ghost use Rattle.operand.specs.Operand.{a_register, register_from, predecrement_close, register_direct, name_or_expression, minus_operand, operand_from, parse_register_operand};
ghost use Rattle.operand.specs.Operands as O;
ghost use Rattle.operand.specs.Operands.{undisplaced};
ghost use Rattle.operand.specs.Forms.{record_of};
ghost use Rattle.operand_code.specs.Operands.{FirstRoom, KeptBy, OperandBy};
ghost use Rattle.operand_code.specs.Lists.{ListAsks};
ghost use Rattle.operand_code.specs.Lookahead.{PredecrementAt, with_register};
ghost use Rattle.operand_code.specs.Told.{token_text};

use crate::absolutes::parse_expression_operand;
use crate::immediates::parse_immediate;
use crate::lists::parse_register_list;
use crate::lookahead::{is_register_at, register_at};
use crate::malformed::{expect_close, not_an_address_register};
use crate::parentheses::parse_parenthesised_operand;
use crate::steps::plain_operand;
use expressions::Source;
use names::{SpecialRegister, Token, kinds};
use operand::{BaseRegister, Form, OperandRecord, Register};
use records::{OperandShape, Progress, Span, operand_expected};

// ---- predecrement

// The parenthesis and the token of the register that make the minus at a place a predecrement. `parse_predecrement` looks up the register.
fn predecrement_at(source: &Source, i: u16) -> Option<(Token, Token)>
    ensures { PredecrementAt source.now.line.now source.now.tokens.now i (option_map (with_register source.now.line.now) result) }
{
    let i = usize::from(i);
    let paren = source.token_of_kind(i + 1, kinds::LEFT_PAREN)?;
    let t = source.token_at(i + 2)?;
    is_register_at(source, t).then_some((paren, t))
}

// Behind the register, which has been seen.
fn parse_predecrement(
    source: &Source,
    out: &mut Progress,
    minus: Token,
    paren: Token,
    token: Token,
) -> Option<OperandRecord>
    requires { Room source.now.tokens.now out.old.counters 0 1 × (a_register token (token_text source.now token) ≡ true) }
    ensures lent { out.new.diagnostics.ghost_name ≡ out.old.diagnostics.ghost_name }
    ensures told { KeptBy undisplaced (predecrement_close source.now.setting minus paren token (register_from token (token_text source.now token))) source.now out.old out.new result }
{
    // never taken: a register has been seen (docs/DECISIONS.md, 41)
    let Some(r) = register_at(source, token) else {
        return None;
    };
    let shape = OperandShape::Predecrement;
    if r.index < 8 {
        not_an_address_register(source, out, shape, token);
        return None;
    }
    let end = expect_close(source, out, paren, shape)?;
    let span = Span {
        start: minus.start,
        end,
    };
    let base = BaseRegister::Address(r);
    Some(plain_operand(Form::Predecrement, span, None, base))
}

// ---- register operand

// Behind a register.
fn parse_register_operand(
    source: &Source,
    nodes: &mut [u16],
    out: &mut Progress,
    r: Register,
) -> Option<OperandRecord>
    requires { ListAsks source.now.tokens.now nodes.old out.old.counters r }
    ensures lent { out.new.diagnostics.ghost_name ≡ out.old.diagnostics.ghost_name }
    ensures told { OperandBy (parse_register_operand source.now.setting r) source.now out.old nodes.new out.new result }
{
    match source.peek(&out.counters) {
        Some(t) if t.kind == kinds::MINUS || t.kind == kinds::SLASH => {
            parse_register_list(source, nodes, out, r)
        }
        _ => Some(register_direct(r)),
    }
}

#[tactic(auto, unfolding(operand::specs::Operand::register_direct, operand::specs::Forms::record_of))]
fn register_direct(r: Register) -> OperandRecord
    ensures { result ≡ record_of (register_direct r r.span) }
{
    let form = if r.index < 8 {
        Form::DataRegisterDirect
    } else {
        Form::AddressRegisterDirect
    };
    plain_operand(form, r.span, None, BaseRegister::Address(r))
}

// ---- operand

#[tactic(auto, unfolding(operand::specs::Forms::record_of))]
fn special_register(special: u8, span: Span) -> OperandRecord
    ensures { result ≡ record_of (O.special_register special span) }
{
    OperandRecord {
        special,
        ..plain_operand(Form::SpecialRegister, span, None, BaseRegister::Omitted)
    }
}

// A name that is a register, a special register, or the first term of an expression.
fn named_operand(
    source: &Source,
    nodes: &mut [u16],
    out: &mut Progress,
    token: Token,
) -> Option<OperandRecord>
    requires { FirstRoom source.now nodes.old out.old × (token_at source.now.tokens.now out.old.counters.at ≡ Some token) × (token.kind ≡ Kinds.identifier) }
    ensures lent { out.new.diagnostics.ghost_name ≡ out.old.diagnostics.ghost_name }
    ensures told { OperandBy (name_or_expression source.now.setting) source.now out.old nodes.new out.new result }
{
    if let Some(r) = register_at(source, token) {
        out.counters.step_over(token);
        return parse_register_operand(source, nodes, out, r);
    }
    match SpecialRegister::parse(source.text_of(token)) {
        Some(n) => {
            out.counters.step_over(token);
            Some(special_register(u8::from(n), Span::from(token)))
        }
        None => parse_expression_operand(source, nodes, out),
    }
}

// A minus: a predecrement where a parenthesis and a register follow it.
fn minus_operand(
    source: &Source,
    nodes: &mut [u16],
    out: &mut Progress,
    minus: Token,
) -> Option<OperandRecord>
    requires { FirstRoom source.now nodes.old out.old × (token_at source.now.tokens.now out.old.counters.at ≡ Some minus) }
    ensures lent { out.new.diagnostics.ghost_name ≡ out.old.diagnostics.ghost_name }
    ensures told { OperandBy (minus_operand source.now.setting minus) source.now out.old nodes.new out.new result }
{
    let Some((paren, t)) = predecrement_at(source, out.counters.at) else {
        return parse_expression_operand(source, nodes, out);
    };
    out.counters.step_over(minus);
    out.counters.step_over(paren);
    out.counters.step_over(t);
    parse_predecrement(source, out, minus, paren, t)
}

// The operand whose first token stands at the cursor.
pub(crate) fn operand_from(
    source: &Source,
    nodes: &mut [u16],
    out: &mut Progress,
    token: Token,
) -> Option<OperandRecord>
    requires { FirstRoom source.now nodes.old out.old × (token_at source.now.tokens.now out.old.counters.at ≡ Some token) }
    ensures lent { out.new.diagnostics.ghost_name ≡ out.old.diagnostics.ghost_name }
    ensures told { OperandBy (operand_from source.now.setting) source.now out.old nodes.new out.new result }
{
    match token.kind {
        kinds::COMMA => {
            out.raise(operand_expected(Span::from(token)));
            None
        }
        kinds::HASH => {
            out.counters.step_over(token);
            parse_immediate(source, nodes, out, token)
        }
        kinds::LEFT_PAREN => {
            out.counters.step_over(token);
            parse_parenthesised_operand(source, nodes, out, token)
        }
        kinds::MINUS => minus_operand(source, nodes, out, token),
        kinds::IDENTIFIER => named_operand(source, nodes, out, token),
        _ => parse_expression_operand(source, nodes, out),
    }
}
