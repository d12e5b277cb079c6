// Numbers as bytes.
ghost use Rattle.std.specs.Prelude.{◌≡◌, [], ◌∷◌, ◌/◌};
ghost use Rattle.operand.specs.Layout.{low};

use records::Span;

// The low byte of a number: all of one that fits the narrow layout.
pub(crate) fn low(number: u16) -> u8
    ensures { result ≡ low number }
{
    number.to_le_bytes()[0]
}

// Two numbers of two bytes each, low byte first.
pub(crate) fn two_words(a: u16, b: u16) -> [u8; 4]
    ensures { result ≡ low a ∷ low (a / 256) ∷ low b ∷ low (b / 256) ∷ [] }
{
    let a = a.to_le_bytes();
    let b = b.to_le_bytes();
    [a[0], a[1], b[0], b[1]]
}

// The bytes of a span in the wide layout.
pub(crate) fn span_bytes(span: Span) -> [u8; 4]
    ensures { result ≡ low span.start ∷ low (span.start / 256) ∷ low span.end ∷ low (span.end / 256) ∷ [] }
{
    two_words(span.start, span.end)
}
