// Operands as the Rust has them. An expression is the number of its root's node.
use records::{Counters, Span};

// A register by its mask index, and the span of its token.
#[derive(Clone, Copy)]
pub struct Register {
    pub index: u8,
    pub span: Span,
}

// Size 1 to 4 and scale 1, 2, 4 or 8, 0 for none; the last span is that of `d1.w*4`. Numbers, here and below, as the record's bytes:
// `write_operand` takes any.
#[derive(Clone, Copy)]
pub struct IndexRegister {
    pub register: Register,
    pub size: u8,
    pub scale: u8,
    pub suppressed: bool,
    pub span: Span,
}

// `Omitted` is among them: a base is a field of `OperandRecord`, of which any may be given. A suppressed address register is its number, 0 to 7.
#[derive(Clone, Copy)]
pub enum BaseRegister {
    Address(Register),
    ProgramCounter,
    SuppressedAddress(u8),
    SuppressedProgramCounter,
    Omitted,
}

// The base and the index of a full index.
#[derive(Clone, Copy)]
pub struct Registers {
    pub base: BaseRegister,
    pub index: Option<IndexRegister>,
}

// An expression and its size, 0 for none.
#[derive(Clone, Copy)]
pub struct Sized {
    pub node: u16,
    pub size: u8,
}

// The fields of the operand's record (docs/FORMAT.md), and the mask of a register list, which has sixteen bits. Order and widths are such that the pieces
// in which a record is copied do not overlap.
#[derive(Clone, Copy)]
pub struct OperandRecord {
    pub base: BaseRegister,
    pub index: Option<IndexRegister>,
    pub displacement: Option<Sized>,
    pub outer: Option<Sized>,
    pub span: Span,
    pub mask: u32,
    pub form: u8,
    pub indirection: u8,
    pub special: u8,
}

// What the reader of an operand answers, with the counters behind it.
#[derive(Clone, Copy)]
pub struct OperandStep {
    pub operand: Option<OperandRecord>,
    pub counters: Counters,
}

// A size suffix: its size, 0 for one that is not known, and its span. A number, as the definition has it, which does not bound it, so that an
// `Option` of the sizes could not be told of it; it goes into the record as it is.
#[derive(Clone, Copy)]
pub struct Suffixed {
    pub size: u8,
    pub span: Span,
}
