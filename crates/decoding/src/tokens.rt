// The tokens of a call: checked, and decoded into four numbers each.
ghost use Rattle.std.specs.Prelude.{◌≡◌, [], ◌∷◌, ◌+◌, ◌-◌, ◌*◌, ◌/◌, ◌≤◌, length};
ghost use Rattle.names.specs.Kinds;
ghost use Rattle.records.specs.Stores.{written};
ghost use Rattle.operand.specs.declared.layouts.Layout.TheVariants as layouts;
ghost use Rattle.operand.specs.Layouts.{token_size};
ghost use Rattle.operand.specs.Entry.{signs, spelled_as, prefixed, well_spelled, good_token, good_tokens};
ghost use Rattle.operand.specs.RefusalNumbers;
ghost use Rattle.decoding.specs.Tokens.{decoded, Decoded};

use names::{Token, kinds};
use operand::{Layout, Refusal};

// The bases of a number, as its token's detail has them; 3 is octal. Constants, and no enum: the definition asks of any number, and the enum of
// `names`, which refuses the others, would add a case for them.
const DECIMAL: u16 = 0;

const HEXADECIMAL: u16 = 1;

const BINARY: u16 = 2;

// Whether a sign is spelled as its kind says; a kind beyond the signs may be spelled in any way.
#[tactic(auto, using(crate::proofs::tokens::Checks::sign_any))]
fn spelled(kind: u16, text: &[u8]) -> bool
    requires { Kinds.hash ≤ kind }
    ensures { result ≡ spelled_as signs (kind - Kinds.hash) text.now }
{
    // The byte of each sign; the last two have it twice.
    let signs = b"#,()[]{}:+-*/\\&!|^~<>";
    match signs.get(usize::from(kind - kinds::HASH)) {
        Some(&byte) if kind < kinds::SHIFT_LEFT => text == [byte].as_slice(),
        Some(&byte) => text == [byte, byte].as_slice(),
        None => true,
    }
}

// Whether a number begins with the prefix of its base; a decimal one has none.
fn prefixed(base: u16, text: &[u8]) -> bool
    ensures { result ≡ prefixed base text.now }
{
    match base {
        DECIMAL => true,
        HEXADECIMAL => text.starts_with(b"$"),
        BINARY => text.starts_with(b"%"),
        _ => text.starts_with(b"@"),
    }
}

// Whether a token's text is one that its kind and detail may have.
#[tactic(auto, unfolding(operand::specs::Entry::well_spelled))]
fn well_spelled(kind: u16, detail: u16, text: &[u8]) -> bool
    ensures { result ≡ well_spelled kind detail text.now }
{
    if kinds::SIZE_SUFFIX < kind {
        return spelled(kind, text);
    }
    !text.is_empty() && (kind != kinds::NUMBER || prefixed(detail, text))
}

// Whether a token is good behind one that ends at `last`.
#[tactic(auto, unfolding(operand::specs::Entry::good_token))]
fn good_token(line: &[u8], last: u16, token: Token) -> bool
    ensures { result ≡ good_token line.now last token.kind token.detail token.start token.end }
{
    let Some(text) = line.get(usize::from(token.start)..usize::from(token.end)) else {
        return false;
    };
    names::detail_defined(token.kind, token.detail)
        && last <= token.start
        && well_spelled(token.kind, token.detail, text)
}

// The numbers of a narrow list, at the front of `numbers`: its bytes. By index: of what `iter_mut` lends the library says nothing afterwards.
fn put_narrow(tokens: &[u8], numbers: &mut [u16])
    requires { length tokens.now ≤ length numbers.old }
    ensures { numbers.new ≡ written numbers.old 0 tokens.now }
{
    for (i, byte) in tokens.iter().enumerate() {
        numbers[i] = u16::from(*byte);
    }
}

// A token's numbers, at its place. One by one: as an array they would be written in pieces of 16 bits and copied in one of 64, for which the
// processor waits (docs/SPEED.md).
#[tactic(auto, using(crate::proofs::tokens::Decoding::four_written))]
fn put_token(numbers: &mut [u16], i: usize, token: Token)
    requires { 4 * i + 4 ≤ length numbers.old }
    ensures { numbers.new ≡ written numbers.old (4 * i) (token.kind ∷ token.detail ∷ token.start ∷ token.end ∷ []) }
{
    let at = 4 * i;
    numbers[at] = token.kind;
    numbers[at + 1] = token.detail;
    numbers[at + 2] = token.start;
    numbers[at + 3] = token.end;
}

// The numbers of a wide list's tokens, likewise. The place is computed: of what `as_chunks_mut` lends the library says nothing afterwards.
fn put_wide(tokens: &[u8], numbers: &mut [u16])
    requires { 4 * (length tokens.now / 6) ≤ length numbers.old }
    ensures { numbers.new ≡ decoded layouts.Wide tokens.now numbers.old }
{
    for (i, &[kind, detail, s0, s1, e0, e1]) in tokens.as_chunks::<6>().0.iter().enumerate() {
        let start = u16::from_le_bytes([s0, s1]);
        let end = u16::from_le_bytes([e0, e1]);
        let token = Token {
            kind: u16::from(kind),
            detail: u16::from(detail),
            start,
            end,
        };
        put_token(numbers, i, token);
    }
}

// The numbers of all n tokens, at the front of `numbers`.
#[tactic(auto, using(crate::proofs::tokens::Decoding::narrow_decoded))]
fn put_tokens(layout: Layout, tokens: &[u8], numbers: &mut [u16], n: usize)
    requires { (n ≡ length tokens.now / token_size layout) × (4 * n ≤ length numbers.old) }
    ensures { numbers.new ≡ decoded layout tokens.now numbers.old }
{
    match layout {
        Layout::Narrow => put_narrow(&tokens[..4 * n], numbers),
        Layout::Wide => put_wide(tokens, numbers),
    }
}

// Whether each token of a list of numbers is good, the first one behind the line's start. All are looked at: leaving at the first bad one would add
// a branch for each good one.
fn good_tokens(line: &[u8], numbers: &[u16]) -> bool
    ensures { result ≡ good_tokens line.now 0 numbers.now }
{
    let mut last = 0;
    let mut good = true;
    for &[kind, detail, start, end] in numbers.as_chunks::<4>().0 {
        let token = Token {
            kind,
            detail,
            start,
            end,
        };
        good &= good_token(line, last, token);
        last = end;
    }
    good
}

// Refusal 4, unless all tokens fit and each is good; their numbers stand at the front of `numbers`. They are decoded before one is looked at, so
// that the layout is not asked for at each token.
pub fn decode_tokens(
    layout: Layout,
    line: &[u8],
    tokens: &[u8],
    numbers: &mut [u16],
) -> Result<(), Refusal>
    ensures { Decoded layout line.now tokens.now numbers.old numbers.new (RefusalNumbers.number_in result) }
{
    let n = layout.token_count(tokens.len());
    if numbers.len() / 4 < n {
        return Err(Refusal::BadToken);
    }
    put_tokens(layout, tokens, numbers, n);
    if good_tokens(line, &numbers[..4 * n]) {
        Ok(())
    } else {
        Err(Refusal::BadToken)
    }
}
