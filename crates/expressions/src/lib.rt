// Expressions: the definition of a reading in specs/.
#![tactic(auto)]

mod reading;
mod source;

pub use reading::Setting;
pub use source::Source;
