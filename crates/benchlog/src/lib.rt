// The bench log: what was done on the bus as bytes, and the answers of a bench to it as bytes.
#![tactic(auto)]

mod answering;
mod bench;
mod fault;
mod faults;
mod item;
mod items;
mod kind;
mod putting;
mod reader;
mod reading;
mod running;
mod sink;

pub use bench::Bench;
pub use fault::Fault;
pub use item::Item;
pub use kind::ItemKind;
pub use putting::write_put_item;
pub use reader::Reader;
pub use sink::Sink;
