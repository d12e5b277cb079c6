// What a reading reads.
ghost use Rattle.std.specs.Prelude.{◌≡◌};
ghost use Rattle.names.specs.Places.{text_of};
ghost use Rattle.names.specs.Tokens.{token_at};
ghost use Rattle.records.specs.Spans.{span, span_or};
ghost use Rattle.expressions.specs.Reader.{of_kind};
ghost use Rattle.expressions.specs.Told.{NextTold};

use crate::reading::Setting;
use names::Token;
use records::{Counters, Span};

// The lent line, the numbers of its tokens, and the setting. Nothing of it changes, so it is lent and not copied.
#[derive(Clone, Copy)]
pub struct Source<'a, 'b> {
    pub line: &'a [u8],
    pub tokens: &'b [u16],
    pub setting: Setting,
}

impl<'a, 'b> Source<'a, 'b> {
    // The token at a place.
    pub fn token_at(&self, i: usize) -> Option<Token>
        ensures { result ≡ token_at self.now.tokens.now i }
    {
        names::token_at(self.tokens, i)
    }

    // The token at the cursor. The counters are lent: by value all four would be read at once, for which the processor waits where one of them
    // was just written (docs/SPEED.md).
    pub fn peek(&self, c: &Counters) -> Option<Token>
        ensures { result ≡ token_at self.now.tokens.now c.now.at }
    {
        self.token_at(usize::from(c.at))
    }

    // The token at a place, if it is of this kind.
    #[tactic(auto, unfolding(crate::specs::Reader::of_kind))]
    pub fn token_of_kind(&self, i: usize, kind: u16) -> Option<Token>
        ensures { result ≡ of_kind kind (token_at self.now.tokens.now i) }
    {
        let token = self.token_at(i)?;
        (token.kind == kind).then_some(token)
    }

    // The token at the cursor, if it is of this kind; the cursor goes behind it, as with `next_if` of `Peekable`.
    pub fn next_of_kind(&self, c: &mut Counters, kind: u16) -> Option<Token>
        ensures { NextTold self.now.tokens.now kind c.old result c.new }
    {
        let token = self.token_of_kind(usize::from(c.at), kind)?;
        c.step_over(token);
        Some(token)
    }

    // The span of the token at the cursor, or the empty one where the last token ended.
    #[tactic(auto, unfolding(records::specs::Spans::span_or))]
    pub fn span_at(&self, c: &Counters) -> Span
        ensures { result ≡ span_or (token_at self.now.tokens.now c.now.at) c.now.end }
    {
        self.peek(c).map_or(Span::empty(c.end), Span::from)
    }

    // From where the operand starts to an offset.
    pub fn span_to(&self, end: u16) -> Span
        ensures { result ≡ span self.now.setting.start end }
    {
        let start = self.setting.start;
        Span { start, end }
    }

    // A token's text.
    pub fn text_of(&self, token: Token) -> &'a [u8]
        ensures { result.now ≡ text_of self.now.line.now token.start token.end }
    {
        names::text_of(self.line, token)
    }
}
