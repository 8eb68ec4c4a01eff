// What frames and modules are called: the edges of buttons, the kinds of modules, and what is wrong with a frame.
#![tactic(auto)]

mod edges;
mod flaw;
mod modules;

pub use edges::edge_name;
pub use flaw::Flaw;
pub use modules::ModuleType;
