// The tokens of a call: each is looked at, and becomes four numbers.
#![tactic(auto)]

mod tokens;

pub use tokens::decode_tokens;
