// The entry: the call that reads one operand.
#![tactic(auto)]

mod call;

pub use call::parse_operand;
