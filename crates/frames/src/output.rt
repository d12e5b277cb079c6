// The output, and how much of it is filled.
ghost use Rattle.std.specs.Prelude.{◌≡◌, [], ◌∷◌, ◌+◌, ◌*◌, ◌≤◌, ◌<◌, length};
ghost use Rattle.frames.specs.Hex.{digits};
ghost use Rattle.frames.specs.Inner.{Wrote};

use crate::hex::put;

// The size of the output.
pub const OUTPUT: usize = 163840;

#[derive(Drop)]
pub(crate) struct Output<'a> {
    pub(crate) bytes: &'a mut [u8],
    pub(crate) filled: usize,
}

impl<'a> Output<'a> {
    // A byte, behind what is filled.
    pub(crate) fn push(&mut self, b: u8)
        requires { self.old.filled < length self.old.bytes.now }
        ensures lent { self.new.bytes.ghost_name ≡ self.old.bytes.ghost_name }
        ensures wrote { Wrote self.old self.new (b ∷ []) }
    {
        self.bytes[self.filled] = b;
        self.filled += 1;
    }

    // The digits of bytes, behind what is filled. Tried: two of `push` for each byte take 21 percent more instructions a frame, and the bar is 3.
    pub(crate) fn put(&mut self, bytes: &[u8])
        requires { self.old.filled + 2 * length bytes.now ≤ length self.old.bytes.now }
        ensures lent { self.new.bytes.ghost_name ≡ self.old.bytes.ghost_name }
        ensures wrote { Wrote self.old self.new (digits bytes.now) }
    {
        self.filled = put(self.bytes, self.filled, bytes);
    }
}
