// Frames in, answer lines out: the program's work on bytes.
#![tactic(auto)]

mod batches;
mod frame;
mod hex;
mod output;
mod reply;

pub use batches::{Batched, batch, finish};
pub use output::OUTPUT;
pub use reply::LONGEST;
