// The refusals by their numbers (docs/FORMAT.md has the order in which they are looked for).
ghost use Rattle.std.specs.Prelude.{◌≡◌};
ghost use Rattle.operand.specs.RefusalNumbers;

#[derive(Clone, Copy, PartialEq, Eq, Debug)]
pub enum Refusal {
    // over 255 bytes, or 4,095 in the wide layout
    LongLine = 1,
    // a byte that is not printable
    ForeignByte,
    // no whole tokens, or over 255, or 1,023 in the wide layout
    BadList,
    // a token that may not stand so
    BadToken,
    // past the tokens
    BadStart,
    // a node store that is too short
    ShortNodes,
    // too few diagnostic records are free
    ShortDiagnostics,
    // of the program alone: a line of the input that is no frame
    BadFrame,
    // a nesting limit outside 1 to 128
    BadLimit = 18,
}

// The number that a caller is told.
impl From<Refusal> for u8 {
    ghost from_gives = { λ refusal n. n ≡ RefusalNumbers.number refusal };

    fn from(refusal: Refusal) -> u8
        ensures { result ≡ RefusalNumbers.number refusal }
    {
        refusal as u8
    }
}
