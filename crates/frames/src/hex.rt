// Lower-case hexadecimal, both ways.
ghost use Rattle.std.specs.Prelude.{◌≡◌, ◌+◌, ◌*◌, ◌≤◌, ◌<◌, length};
ghost use Rattle.frames.specs.Hex.{digit, digits};
ghost use Rattle.frames.specs.Inner.{digit_value, DecodedAs, Put};

// The value of a digit. Not by `char::to_digit`, which takes capitals too.
#[tactic(auto, unfolding(crate::specs::Hex::value, crate::specs::Hex::is_digit))]
fn value(c: u8) -> Option<u8>
    ensures { result ≡ digit_value c }
{
    match c {
        b'0'..=b'9' => Some(c - b'0'),
        b'a'..=b'f' => Some(c - b'a' + 10),
        _ => None,
    }
}

// `char::from_digit` would answer an `Option` that is never `None`, of a `char`: no plainer.
#[tactic(auto, unfolding(crate::specs::Hex::digit))]
fn digit(n: u8) -> u8
    requires { n < 16 }
    ensures { result ≡ digit n }
{
    if n < 10 { b'0' + n } else { b'a' - 10 + n }
}

// Writes the bytes that a line spells to the beginning of the store; how many they are, if it spells bytes.
pub(crate) fn decode(line: &[u8], store: &mut [u8]) -> Option<usize>
    requires { length line.now ≤ 2 * length store.old }
    ensures { DecodedAs line.now store.new result }
{
    let (pairs, rest) = line.as_chunks::<2>();
    if !rest.is_empty() {
        return None;
    }
    // Tried: `zip` with `store.iter_mut()`; of a store behind an adapter nothing is told after the loop, and the proof didn't close.
    for (i, &[high, low]) in pairs.iter().enumerate() {
        store[i] = 16 * value(high)? + value(low)?;
    }
    Some(pairs.len())
}

// Writes the digits of the bytes from a place on, and returns the next place. The places are counted, since nothing is told of what a slice
// ends as after `as_chunks_mut`.
pub(crate) fn put(out: &mut [u8], at: usize, bytes: &[u8]) -> usize
    requires { at + 2 * length bytes.now ≤ length out.old }
    ensures { Put out.old out.new at (digits bytes.now) result }
{
    for (i, b) in bytes.iter().enumerate() {
        out[at + 2 * i] = digit(*b / 16);
        out[at + 2 * i + 1] = digit(*b % 16);
    }
    at + 2 * bytes.len()
}
