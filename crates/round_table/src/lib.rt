//! The tables of the rounds: the state of each node by its key, and the nodes that enter and leave instances.
#![tactic(auto)]

pub mod crossings;
pub mod gathered;
pub mod table;

pub use crossings::{Crossing, Crossings};
pub use gathered::GatheredStates;
pub use table::Table;
