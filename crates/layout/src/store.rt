// Bytes in a lent store.
ghost use Rattle.std.specs.Prelude.{◌≡◌, length, replicate};

// The bytes that are cleared at once: the C library clears more with an instruction that is slow to begin.
const PART: usize = 2047;

// Sets all bytes to 0, in parts. A place is counted: of what `chunks_mut` lends the library says nothing afterwards.
pub(crate) fn clear(store: &mut [u8])
    ensures { store.new ≡ replicate (length store.old) 0 }
{
    let mut at = 0;
    while PART < store.len() - at {
        let end = at + PART;
        store[at..end].fill(0);
        at = end;
    }
    store[at..].fill(0);
}
