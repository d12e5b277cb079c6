// Operands: the definition of a reading in specs/, and the types that the code and it share.
#![tactic(auto)]

mod form_numbers;
mod forms;
mod layouts;
mod refusals;

pub use form_numbers::Form;
pub use forms::{
    BaseRegister, IndexRegister, OperandRecord, OperandStep, Register, Registers, Sized, Suffixed,
};
pub use layouts::Layout;
pub use refusals::Refusal;
