// The value of a number token.
ghost use Rattle.std.specs.Prelude.{◌≡◌};
ghost use Rattle.expressions_code.specs.Numbers.{ValueBy};

use expressions::Source;
use names::{NumberError, Token};
use records::{DiagnosticKind, Progress, Span, plain};

// A number token's value, 0 where it has none. One that is too large is told.
pub fn number_value(source: &Source, out: &mut Progress, token: Token) -> u64
    ensures lent { out.new.diagnostics.ghost_name ≡ out.old.diagnostics.ghost_name }
    ensures told { ValueBy source.now out.old out.new token result }
{
    match names::parse_number(token.detail, source.text_of(token)) {
        Ok(v) => v,
        Err(NumberError::TooLarge) => {
            let span = Span::from(token);
            out.raise(plain(DiagnosticKind::NumberTooLarge, span, span));
            0
        }
        Err(NumberError::Invalid) => 0,
    }
}
