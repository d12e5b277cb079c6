// The tokens of a line: four numbers each, a kind, a detail, a start and an end. In the caller's list the numbers are bytes.
// Numbers and no slice of tokens: a list of any length is lent, which may end within a token.
ghost use Rattle.std.specs.Prelude.{◌≡◌, drop};
ghost use Rattle.names.specs.Tokens.{TokenRead, detail_defined};
ghost use Rattle.names.specs.Places.{text_of};

use crate::kinds::{NUMBER, STRING_LITERAL};

// How many kinds, bases of a number and quotes of a string there are.
const KINDS: u16 = 30;

const BASES: u16 = 4;

const QUOTES: u16 = 2;

#[derive(Clone, Copy)]
pub struct Token {
    pub kind: u16,
    pub detail: u16,
    pub start: u16,
    pub end: u16,
}

// The token at a place of the list, whose numbers may be bytes; from the list's end on there is none.
// By index, tried: `as_chunks` of any element owes a proof that four fit the memory; `get` with a pattern is slower (docs/SPEED.md).
pub fn token_at<T: Copy + Into<u16>>(tokens: &[T], i: usize) -> Option<Token>
    ensures { TokenRead T.converts tokens.now i result }
{
    if tokens.len() / 4 <= i {
        return None;
    }
    let at = 4 * i;
    Some(Token {
        kind: tokens[at].into(),
        detail: tokens[at + 1].into(),
        start: tokens[at + 2].into(),
        end: tokens[at + 3].into(),
    })
}

// Whether a token's kind and detail are ones that are defined (docs/FORMAT.md).
#[tactic(auto, unfolding(crate::specs::Tokens::detail_defined))]
pub fn detail_defined(kind: u16, detail: u16) -> bool
    ensures { result ≡ detail_defined kind detail }
{
    match kind {
        NUMBER => detail < BASES,
        STRING_LITERAL => detail < QUOTES,
        _ => detail == 0 && kind < KINDS,
    }
}

// A text without its first byte.
pub(crate) fn behind_first(text: &[u8]) -> &[u8]
    ensures { result.now ≡ drop 1 text.now }
{
    text.get(1..).unwrap_or_default()
}

// The text of a token, empty where its span does not lie within the line.
#[tactic(auto, unfolding(crate::specs::Places::text_of))]
pub fn text_of(line: &[u8], token: Token) -> &[u8]
    ensures { result.now ≡ text_of line.now token.start token.end }
{
    let span = usize::from(token.start)..usize::from(token.end);
    line.get(span).unwrap_or_default()
}
