// What the library of a terminal's firmware does.
#![tactic(auto)]

mod call;

pub use call::parse_operand;
