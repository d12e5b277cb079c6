// Records of numbers in stores: spans, counters, diagnostics and nodes; and how far a reading is.
#![tactic(auto)]

mod counters;
mod diagnostic_kinds;
mod diagnostics;
mod node_kinds;
mod nodes;
pub mod problems;
mod progress;
mod reports;
pub mod shapes;
mod spans;
mod stores;

pub use counters::{Counters, MOST_COUNTED, MOST_TOKENS};
pub use diagnostic_kinds::DiagnosticKind;
pub use diagnostics::Diagnostic;
pub use node_kinds::NodeKind;
pub use nodes::{ABSENT, Node, clear_behind, clear_nodes, put_counted, put_node, widen};
pub use problems::{NO_PROBLEM, Problem};
pub use progress::Progress;
pub use reports::{
    diagnostic, expression_expected, malformed, operand_expected, plain, push_diagnostic,
    unclosed_parenthesis, unexpected_token_in_operand,
};
pub use shapes::{NO_SHAPE, OperandShape};
pub use spans::Span;
pub use stores::write;
