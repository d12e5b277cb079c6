// The refusals of a call, but for those of its tokens.
#![tactic(auto)]

mod refusals;

pub use refusals::{refuse_line_and_list, refuse_start_stores_and_limit};
