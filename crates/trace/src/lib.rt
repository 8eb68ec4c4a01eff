// A house whose calls are shown, line by line.
#![tactic(auto)]

mod shown;
mod trace;

pub use shown::Shown;
pub use trace::Trace;
