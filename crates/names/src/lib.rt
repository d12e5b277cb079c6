// The leaves of the operand reader: tokens and their texts, and what a text spells.
#![tactic(auto)]

pub mod kinds;
mod letters;
mod literals;
mod numbers;
mod registers;
mod sizes;
mod tokens;

pub use literals::string_literal_bytes;
pub use numbers::{NumberError, parse_number};
pub use registers::{
    SpecialRegister, Suppressed, is_program_counter, is_reserved_name, parse_register,
    suppressed_register,
};
pub use sizes::{SizeSuffix, suffix_run};
pub use tokens::{Token, detail_defined, text_of, token_at};
