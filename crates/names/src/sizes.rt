// Size suffixes.
ghost use Rattle.std.specs.Prelude.{◌≡◌, Some};
ghost use Rattle.names.specs.Sizes.{run_of};
ghost use Rattle.names.specs.Cases.{size_number, SizeTold};

use crate::letters::lower;
use crate::tokens::behind_first;

// The sizes, in the order of the Rust's `SizeSuffix`.
#[derive(Clone, Copy, PartialEq, Eq)]
pub enum SizeSuffix {
    Byte = 1,
    Word,
    Long,
    Short,
}

// The number that a record has.
impl From<SizeSuffix> for u8 {
    ghost from_gives = { λ x n. n ≡ size_number (Some x) };

    fn from(x: SizeSuffix) -> u8
        ensures { result ≡ size_number (Some x) }
    {
        x as u8
    }
}

// The run of a size suffix: its text behind the first byte, whatever that is.
#[tactic(auto, unfolding(crate::specs::Sizes::run_of))]
pub fn suffix_run(suffix: &[u8]) -> &[u8]
    ensures { result.now ≡ run_of suffix.now }
{
    behind_first(suffix)
}

impl SizeSuffix {
    pub fn from_run(run: &[u8]) -> Option<SizeSuffix>
        ensures { SizeTold run.now result }
    {
        let &[letter] = run else {
            return None;
        };
        match lower(letter) {
            b'b' => Some(SizeSuffix::Byte),
            b'w' => Some(SizeSuffix::Word),
            b'l' => Some(SizeSuffix::Long),
            b's' => Some(SizeSuffix::Short),
            _ => None,
        }
    }
}
