// Quoted literals.
ghost use Rattle.std.specs.Prelude.{◌≡◌, [], ⊤, MatchOption};
ghost use Rattle.std.specs.Iterator.{YieldsFirst, MakesProgress, item_count};
ghost use Rattle.names.specs.Literals.{quoted, FirstInner, literal_bytes, Stored};

// The first byte that the inside of a literal stands for, and what is left behind it; none at the literal's end.
// A doubled quote is one quote, and a single one closes the literal.
#[tactic(auto, using(crate::proofs::literals::Quotes::quoted_none, crate::proofs::literals::Quotes::quoted_first, crate::proofs::literals::Quotes::quoted_last, crate::proofs::literals::Quotes::quoted_close, crate::proofs::literals::Quotes::quoted_double))]
fn first_inner(inside: &[u8], quote: u8) -> Option<(u8, &[u8])>
    ensures { MatchOption result (quoted quote inside.now ≡ []) (λ p. FirstInner quote inside.now p.0 p.1.now) }
{
    match inside {
        [first, rest @ ..] if *first != quote => Some((*first, rest)),
        [_, second, rest @ ..] if *second == quote => Some((quote, rest)),
        _ => None,
    }
}

// The bytes of a literal that are still to come: its quote, and what is left of its inside.
#[derive(Clone, Copy)]
struct Inside<'a> {
    quote: u8,
    rest: &'a [u8],
}

impl<'a> Iterator for Inside<'a> {
    type Item = u8;

    ghost next_gives = { YieldsFirst (λ s. quoted s.quote s.rest.now) };

    ghost remaining = { item_count (λ s. quoted s.quote s.rest.now) };

    fn next(&mut self) -> Option<u8>
        ensures steps { YieldsFirst (λ s. quoted s.quote s.rest.now) self.old result self.new }
        ensures goes { MakesProgress (λ _. ⊤) (item_count (λ s. quoted s.quote s.rest.now)) self.old result self.new }
    {
        let (byte, behind) = first_inner(self.rest, self.quote)?;
        self.rest = behind;
        Some(byte)
    }
}

// The bytes that a quoted literal stands for, at the start of `out`, and how many they are; where they have no room, nothing is stored.
pub fn string_literal_bytes(text: &[u8], out: &mut [u8]) -> Option<usize>
    ensures { Stored (literal_bytes text.now) out.old out.new result }
{
    let [quote, rest @ ..] = text else {
        return Some(0);
    };
    let bytes = Inside {
        quote: *quote,
        rest,
    };
    // counted first: what has no room stores nothing
    let n = bytes.count();
    if out.len() < n {
        return None;
    }
    // by index, tried: of a store through `zip` with `iter_mut` nothing is told behind the adapter
    for (i, byte) in bytes.enumerate() {
        out[i] = byte;
    }
    Some(n)
}
