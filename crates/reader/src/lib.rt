// A thin reader: the lent line, its tokens and a place among them.
#![tactic(auto)]

ghost use Rattle.std.specs.Prelude.{◌≡◌};
ghost use Rattle.reader.specs.Cursor.{text_at, place_in, next_place};

use names::{text_of, token_at};

#[derive(Clone, Copy)]
pub struct Reader<'a, 'b> {
    pub line: &'a [u8],
    pub tokens: &'b [u8],
    pub place: usize,
}

// The place itself, or the end of the tokens where the place lies behind it.
#[tactic(auto, unfolding(crate::specs::Cursor::place_in))]
pub fn place_in(tokens: &[u8], place: usize) -> usize
    ensures { result ≡ place_in tokens.now place }
{
    place.min(tokens.len() / 4)
}

impl<'a, 'b> Reader<'a, 'b> {
    // A reader at the place, or at the end of the tokens where the place lies behind it.
    pub fn new(line: &'a [u8], tokens: &'b [u8], place: usize) -> Reader<'a, 'b>
        ensures { (result.line ≡ line.entry) × (result.tokens ≡ tokens.entry) × (result.place ≡ place_in tokens.now place) }
    {
        let place = place_in(tokens, place);
        Reader {
            line,
            tokens,
            place,
        }
    }

    // The text of the token at the reader's place, empty where none stands: a part of the caller's line, for as long as the line is lent.
    pub fn text(self) -> &'a [u8]
        ensures { result.now ≡ text_at self.entry.line.now self.entry.tokens.now self.entry.place }
    {
        token_at(self.tokens, self.place).map_or(&[], |token| text_of(self.line, token))
    }

    // The reader behind the token at its place, or at the same place where none stands.
    pub fn advance(mut self) -> Reader<'a, 'b>
        ensures { (result.line ≡ self.entry.line) × (result.tokens ≡ self.entry.tokens) × (result.place ≡ next_place self.entry.tokens.now self.entry.place) }
    {
        if token_at(self.tokens, self.place).is_some() {
            self.place += 1;
        }
        self
    }
}

// The text of the token behind the one at a place.
pub fn next_text<'a, 'b>(line: &'a [u8], tokens: &'b [u8], place: usize) -> &'a [u8]
    ensures { result.now ≡ text_at line.now tokens.now (next_place tokens.now (place_in tokens.now place)) }
{
    Reader::new(line, tokens, place).advance().text()
}
