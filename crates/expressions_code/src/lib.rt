// Expressions: terms, levels and trees, read into stores of records.
#![tactic(auto)]

mod leaves;
mod levels;
mod numbers;
mod reading;
mod reports;
mod terms;

pub use numbers::number_value;
pub use reading::{expression, expression_from};
pub use terms::TermError;
