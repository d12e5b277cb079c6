// The kinds of nodes (docs/FORMAT.md). What a lent or given record has is a number: it may be any.
ghost use Rattle.std.specs.Prelude.{◌≡◌};
ghost use Rattle.records.specs.NodeKinds;

#[derive(Clone, Copy, PartialEq, Eq, Debug)]
pub enum NodeKind {
    Number = 1,
    Literal,
    Symbol,
    CurrentAddress,
    Unary,
    Binary,
    // a register of a list, and a range of them
    Single,
    Range,
}

// The number that a record has.
impl From<NodeKind> for u16 {
    ghost from_gives = { λ x n. n ≡ NodeKinds.number x };

    fn from(x: NodeKind) -> u16
        ensures { result ≡ NodeKinds.number x }
    {
        x as u16
    }
}
