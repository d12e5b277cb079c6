// Spans of the line.
ghost use Rattle.std.specs.Prelude.{◌≡◌, ◌+◌, ◌*◌, ◌<◌};
ghost use Rattle.records.specs.Spans.{empty, span_of};

use names::Token;

// Byte offsets in the line, the end excluded. Where a record has no span, both are 0. Made by its fields, which say which is which: a call with two
// numbers would not, and is no plainer.
#[derive(Clone, Copy, Default)]
pub struct Span {
    pub start: u16,
    pub end: u16,
}

impl Span {
    // The empty span at an offset.
    pub fn empty(at: u16) -> Span
        ensures { result ≡ empty at }
    {
        Span { start: at, end: at }
    }

    // Both offsets in one number, as two words of a node's value hold a span.
    pub fn packed(self) -> u64
        ensures { (result ≡ self.start + 65536 * self.end) × (self.start < 65536) × (self.end < 65536) }
    {
        u64::from(self.start) + 65536 * u64::from(self.end)
    }
}

// The span of a token.
impl From<Token> for Span {
    ghost from_gives = { λ token s. s ≡ span_of token };

    fn from(token: Token) -> Span
        ensures { result ≡ span_of token }
    {
        Span {
            start: token.start,
            end: token.end,
        }
    }
}
