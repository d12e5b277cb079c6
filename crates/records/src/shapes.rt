// The shapes of operands, by which a malformed one is told, all those of the Rust's `OperandShape`, in its order. What a lent or given record has is a
// number: it may be any.
ghost use Rattle.std.specs.Prelude.{◌≡◌};
ghost use Rattle.records.specs.Shapes;

// of a kind that has none
pub const NO_SHAPE: u16 = 0;

#[derive(Clone, Copy, PartialEq, Eq, Debug)]
pub enum OperandShape {
    // `#5`
    Immediate = 1,
    // `(a0)`
    Indirect,
    // `(a0)+`
    Postincrement,
    // `-(a0)`
    Predecrement,
    // `4(a0)`
    Displacement,
    // `4(a0,d1.w)`
    Index,
    // `label(pc)`
    PcDisplacement,
    // `label(pc,d1.w)`
    PcIndex,
    // `([4,a0],d1.w*4,8)`
    MemoryIndirect,
    // `$1000`
    Absolute,
    // `d0-d3/a0-a2`
    RegisterList,
    // `(640-2)/2`
    GroupedExpression,
    // `d1:d2`
    RegisterPair,
    // `d0{4:8}`
    BitField,
}

// The number that a record has.
impl From<OperandShape> for u16 {
    ghost from_gives = { λ x n. n ≡ Shapes.number x };

    fn from(x: OperandShape) -> u16
        ensures { result ≡ Shapes.number x }
    {
        x as u16
    }
}
