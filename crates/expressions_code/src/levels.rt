// Levels and numbers of operators, by the kind of their token. The kinds stand in the order of the levels, with the tilde between the
// third and the fourth.
ghost use Rattle.std.specs.Prelude.{◌≡◌};
ghost use Rattle.expressions.specs.Expressions.{precedence, binary_operator, unary_operator};

use names::kinds;

// The level of a kind of token as a binary operator, 0 for a kind that is none. No `Option`: it is compared with the least level, so that none
// needs no case of its own.
#[tactic(auto, unfolding(expressions::specs::Expressions::precedence))]
pub(crate) fn precedence(kind: u16) -> u8
    ensures { result ≡ precedence kind }
{
    match kind {
        kinds::PLUS..=kinds::MINUS => 1,
        kinds::STAR..=kinds::BACKSLASH => 2,
        kinds::AMPERSAND..=kinds::CARET => 3,
        kinds::SHIFT_LEFT..=kinds::SHIFT_RIGHT => 4,
        _ => 0,
    }
}

// The number of a kind as a binary operator, and 9, that of the last one, for a kind that is none: it is asked of an operator alone. A number, which
// goes into the node as it is: an enum of the ten would be made the same number there.
#[tactic(auto, unfolding(expressions::specs::Expressions::binary_operator))]
pub(crate) fn binary_operator(kind: u16) -> u16
    ensures { result ≡ binary_operator kind }
{
    match kind {
        kinds::PLUS..=kinds::BANG => kind - kinds::PLUS,
        // Either sign of or is the same operator.
        kinds::PIPE..=kinds::CARET => kind - kinds::MINUS,
        kinds::SHIFT_LEFT => 8,
        _ => 9,
    }
}

// A unary operator's number, of a kind that is one: 0 and 1 are the definition's, as `binary_operator`'s are.
#[tactic(auto, unfolding(expressions::specs::Expressions::unary_operator))]
pub(crate) fn unary_operator(kind: u16) -> u16
    ensures { result ≡ unary_operator kind }
{
    match kind {
        kinds::MINUS => 0,
        _ => 1,
    }
}
