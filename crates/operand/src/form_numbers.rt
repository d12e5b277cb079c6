// The forms of operands: those of the Rust's `Operand`, in its order. What a given record has is a number: it may be any.
ghost use Rattle.std.specs.Prelude.{◌≡◌};
ghost use Rattle.operand.specs.FormNumbers;

#[derive(Clone, Copy, PartialEq, Eq, Debug)]
pub enum Form {
    Immediate = 1,
    DataRegisterDirect,
    AddressRegisterDirect,
    SpecialRegister,
    Indirect,
    Postincrement,
    Predecrement,
    Displacement,
    Index,
    PcDisplacement,
    PcIndex,
    FullIndex,
    Absolute,
    RegisterList,
}

// The number that a record has.
impl From<Form> for u8 {
    ghost from_gives = { λ x n. n ≡ FormNumbers.number x };

    fn from(x: Form) -> u8
        ensures { result ≡ FormNumbers.number x }
    {
        x as u8
    }
}
