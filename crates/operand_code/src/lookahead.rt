// What stands at a place, as the Rust's `register_at` and its like ask. A token has been looked at already.
ghost use Rattle.std.specs.Prelude.{◌≡◌, true, false, not, ◌+◌, eqb, Some, None};
ghost use Rattle.names.specs.Choice.{pick, both, either};
ghost use Rattle.names.specs.Kinds;
ghost use Rattle.names.specs.Places.{place};
ghost use Rattle.names.specs.declared.registers.Suppressed.{Suppressed};
ghost use Rattle.expressions.specs.Laws.{holds};
ghost use Rattle.expressions.specs.Reader.{any};
ghost use Rattle.operand.specs.Operand.{a_register, an_address_register, a_program_counter, an_index, a_base_or_an_index, closes, size_or_scale};
ghost use Rattle.operand_code.specs.Lookahead.{address_of, registered, register_at, suppressed_at, suppressed_index_at, full_index_starts, base_starts, address_base, suppressed_base, base_at};
ghost use Rattle.operand_code.specs.Told.{token_text};

use expressions::Source;
use names::{Suppressed, Token, kinds};
use operand::{BaseRegister, Register};
use records::Span;

// The register that a token is, with the token's span.
#[tactic(auto, unfolding(crate::specs::Lookahead::register_at, crate::specs::Lookahead::reg_at))]
pub(crate) fn register_at(source: &Source, token: Token) -> Option<Register>
    ensures { result ≡ register_at token (token_text source.now token) }
{
    if token.kind != kinds::IDENTIFIER {
        return None;
    }
    let index = names::parse_register(source.text_of(token))?;
    Some(registered(index, token))
}

#[tactic(auto, using(crate::proofs::lookahead::Names::a_register_is))]
pub(crate) fn is_register_at(source: &Source, token: Token) -> bool
    ensures { result ≡ a_register token (token_text source.now token) }
{
    register_at(source, token).is_some()
}

fn registered(index: u8, token: Token) -> Register
    ensures { result ≡ registered token index }
{
    Register {
        index,
        span: Span::from(token),
    }
}

#[tactic(auto, unfolding(crate::specs::Lookahead::address_of))]
pub(crate) fn address_register_at(source: &Source, token: Token) -> Option<Register>
    ensures { result ≡ address_of (register_at token (token_text source.now token)) }
{
    register_at(source, token).filter(|r| 8 <= r.index)
}

#[tactic(auto, unfolding(operand::specs::Operand::a_program_counter))]
pub(crate) fn program_counter_at(source: &Source, token: Token) -> bool
    ensures { result ≡ a_program_counter token (token_text source.now token) }
{
    token.kind == kinds::IDENTIFIER && names::is_program_counter(source.text_of(token))
}

// The mark may turn the place i into a symbol.
#[tactic(auto, unfolding(crate::specs::Lookahead::suppressed_at))]
pub(crate) fn suppressed_register_at(source: &Source, token: Token, i: u16) -> Option<Suppressed>
    ensures { result ≡ suppressed_at source.now.setting i token (token_text source.now token) }
{
    if source.setting.mark == u32::from(i) || token.kind != kinds::IDENTIFIER {
        return None;
    }
    names::suppressed_register(source.text_of(token))
}

// The suppressed register at the place i, if it is one that may be an index.
#[tactic(auto, unfolding(crate::specs::Lookahead::suppressed_index_at, crate::specs::Lookahead::suppressed_reg))]
pub(crate) fn suppressed_index_at(source: &Source, token: Token, i: u16) -> Option<Register>
    ensures { result ≡ suppressed_index_at source.now.setting i token (token_text source.now token) }
{
    match suppressed_register_at(source, token, i) {
        Some(Suppressed::Register(index)) => Some(registered(index, token)),
        _ => None,
    }
}

// A register, or a suppressed one, that may be an index. A `match` here and below: at `is_some_and` a closure that calls other functions needs their contract written once more (tried).
#[tactic(auto, using(crate::proofs::lookahead::Names::an_index_lem), unfolding(expressions::specs::Laws::holds, names::specs::Places::place, names::specs::Places::placed))]
pub(crate) fn is_an_index_at(source: &Source, i: u16) -> bool
    ensures { result ≡ holds (an_index source.now.setting i) (place source.now.line.now source.now.tokens.now i) }
{
    match source.token_at(usize::from(i)) {
        Some(t) => is_register_at(source, t) || suppressed_index_at(source, t, i).is_some(),
        None => false,
    }
}

// A register or the program counter, suppressed or not.
#[tactic(auto, using(crate::proofs::lookahead::Names::a_base_or_an_index_lem))]
pub(crate) fn is_a_base_or_an_index(source: &Source, token: Token, i: u16) -> bool
    ensures { result ≡ a_base_or_an_index source.now.setting i token (token_text source.now token) }
{
    program_counter_at(source, token)
        || is_register_at(source, token)
        || suppressed_register_at(source, token, i).is_some()
}

// Whether the place holds a size or a scale, or a parenthesis or a comma where these may follow.
#[tactic(auto, unfolding(operand::specs::Operand::closes, operand::specs::Operand::size_or_scale, expressions::specs::Laws::holds, names::specs::Places::place, names::specs::Places::placed))]
pub(crate) fn closes_at(source: &Source, i: usize, paren: bool, comma: bool) -> bool
    ensures { result ≡ holds (closes paren comma) (place source.now.line.now source.now.tokens.now i) }
{
    source.token_at(i).is_some_and(|t| match t.kind {
        kinds::SIZE_SUFFIX | kinds::STAR => true,
        kinds::RIGHT_PAREN => paren,
        kinds::COMMA => comma,
        _ => false,
    })
}

// A suppressed register, a data register that is no base, or an address register with a size or a scale.
// What stands one further is asked by a `usize`, which holds each i + 1.
#[tactic(auto, using(crate::proofs::lookahead::Names::unmarked_is, crate::proofs::lookahead::Names::suppressed_asked), unfolding(crate::specs::Lookahead::full_index_starts, operand::specs::Operand::is_suppressed, expressions::specs::Laws::holds, names::specs::Places::place, names::specs::Places::placed))]
pub(crate) fn starts_a_full_index(source: &Source, i: u16) -> bool
    ensures { result ≡ full_index_starts source.now.setting (place source.now.line.now source.now.tokens.now) i }
{
    match source.token_at(usize::from(i)) {
        Some(t) => match suppressed_register_at(source, t, i) {
            Some(_) => closes_at(source, usize::from(i) + 1, true, true),
            None => register_starts(source, i, t),
        },
        None => false,
    }
}

// A register that a full index begins with, by what follows it.
#[tactic(auto, using(crate::proofs::lookahead::Names::no_register, crate::proofs::lookahead::Names::no_address_register, crate::proofs::lookahead::Starts::register_starts))]
fn register_starts(source: &Source, i: u16, token: Token) -> bool
    ensures { result ≡ pick (an_address_register token (token_text source.now token)) (holds (closes false false) (place source.now.line.now source.now.tokens.now (i + 1))) (both (a_register token (token_text source.now token)) (holds (closes true false) (place source.now.line.now source.now.tokens.now (i + 1)))) }
{
    match register_at(source, token) {
        Some(r) => closes_at(source, usize::from(i) + 1, r.index < 8, false),
        None => false,
    }
}

// A register or the program counter, and then a parenthesis, a comma or the end.
#[tactic(auto, unfolding(crate::specs::Lookahead::base_starts, expressions::specs::Laws::holds, names::specs::Places::place, names::specs::Places::placed))]
pub(crate) fn starts_a_base(source: &Source, i: u16) -> bool
    ensures { result ≡ base_starts (place source.now.line.now source.now.tokens.now) i }
{
    match source.token_at(usize::from(i)) {
        Some(t) => {
            (is_register_at(source, t) || program_counter_at(source, t))
                && ends_a_base(source, usize::from(i) + 1)
        }
        None => false,
    }
}

// A parenthesis, a comma or the end.
#[tactic(auto, unfolding(expressions::specs::Laws::holds, names::specs::Places::place, names::specs::Places::placed))]
fn ends_a_base(source: &Source, i: usize) -> bool
    ensures { result ≡ either (not (holds any (place source.now.line.now source.now.tokens.now i))) (holds (λ t x. either (eqb t.kind Kinds.right_paren) (eqb t.kind Kinds.comma)) (place source.now.line.now source.now.tokens.now i)) }
{
    source
        .token_at(i)
        .is_none_or(|t| matches!(t.kind, kinds::RIGHT_PAREN | kinds::COMMA))
}

// The base that the token at the place i is, if it is one: a size or a scale makes an address register an index.
#[tactic(auto, unfolding(crate::specs::Lookahead::base_at, crate::specs::Lookahead::is_counter, crate::specs::Lookahead::suppressed_base))]
pub(crate) fn base_at(source: &Source, i: u16, token: Token) -> Option<BaseRegister>
    ensures { result ≡ base_at source.now.setting (place source.now.line.now source.now.tokens.now) i token (token_text source.now token) }
{
    if program_counter_at(source, token) {
        return Some(BaseRegister::ProgramCounter);
    }
    match suppressed_register_at(source, token, i) {
        Some(Suppressed::ProgramCounter) => Some(BaseRegister::SuppressedProgramCounter),
        Some(Suppressed::Register(index)) => {
            address_at(source, i, token, suppressed_address(index))
        }
        None => address_at(source, i, token, None),
    }
}

// An address register, or else the other base; none with a size or a scale.
#[tactic(auto, using(crate::proofs::lookahead::Starts::closes_neither), unfolding(crate::specs::Lookahead::address_base, crate::specs::Lookahead::address_of))]
fn address_at(
    source: &Source,
    i: u16,
    token: Token,
    other: Option<BaseRegister>,
) -> Option<BaseRegister>
    ensures { result ≡ pick (holds size_or_scale (place source.now.line.now source.now.tokens.now (i + 1))) None (address_base (register_at token (token_text source.now token)) other) }
{
    if closes_at(source, usize::from(i) + 1, false, false) {
        return None;
    }
    address_register_at(source, token)
        .map(BaseRegister::Address)
        .or(other)
}

// A suppressed data register is no base.
#[tactic(auto, unfolding(crate::specs::Lookahead::suppressed_base))]
fn suppressed_address(index: u8) -> Option<BaseRegister>
    ensures { result ≡ suppressed_base (Some (Suppressed.Register index)) }
{
    index.checked_sub(8).map(BaseRegister::SuppressedAddress)
}
