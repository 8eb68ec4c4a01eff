// A house: one station, the frames that are pending on its bus, and the calls by which a bench works with it.
#![tactic(auto)]

mod built;
mod call;
mod house;

pub use call::Call;
pub use house::{House, smallest_group_refusal_first, smallest_refusal_first};
