// The answer as bytes (docs/FORMAT.md): the reading's numbers encoded.
#![tactic(auto)]

mod answer;
mod diagnostics;
mod nodes;
mod numbers;
mod record;
mod store;

pub use answer::{Answer, Case, head_size, write_head};
pub use diagnostics::encode_diagnostics;
pub use nodes::encode_nodes;
pub use record::write_operand;
pub use records::write;
