// The problems of malformed operands, by their texts in the Rust; and the signs that one kind of diagnostic has in a problem's place.
// docs/FORMAT.md has the numbers.
ghost use Rattle.std.specs.Prelude.{◌≡◌};
ghost use Rattle.records.specs.Problems;

// of a kind that has none
pub const NO_PROBLEM: u16 = 0;

#[derive(Clone, Copy, PartialEq, Eq, Debug)]
pub enum Problem {
    // "an immediate carries no size: .."
    ImmediateCarriesNoSize = 1,
    // "`..` is not an address register"
    NotAnAddressRegister,
    // "the `)` is missing"
    ParenMissing,
    // "the displacement is missing"
    TheDisplacementMissing,
    // "the base register is missing"
    BaseMissing,
    // "the index register is missing"
    IndexMissing,
    // "the scale after `*` must be 1, 2, 4 or 8"
    BadScale,
    // "the `]` is missing"
    BracketMissing,
    // "the index register goes inside the brackets or after them, not both"
    IndexTwice,
    // "a displacement is missing"
    ADisplacementMissing,
    // "a base register or an index register is missing"
    BaseOrIndexMissing,
    // the sign that the register would follow, by its ASCII code: `-`
    AfterMinus = 45,
    // `/`
    AfterSlash = 47,
}

// The number that a record has.
impl From<Problem> for u16 {
    ghost from_gives = { λ x n. n ≡ Problems.number x };

    fn from(x: Problem) -> u16
        ensures { result ≡ Problems.number x }
    {
        x as u16
    }
}
