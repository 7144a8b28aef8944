//! Nesting of calls and interrupts: the rank and need of each instance, or the named cycle. Tests: `family_tables`.
#![tactic(auto)]

pub mod chaining;
pub mod composing;
mod cycle;
mod depth_first;
pub mod fault;
mod found;
pub mod graph;
pub mod laws;
mod peel;
mod reach;
mod shape;

pub use chaining::chain;
pub use composing::{Composed, compose, compose_acyclic};
pub use fault::ComposeFault;
pub use graph::{ClosedNode, Entered, Graph, GraphInst, GraphWay, Link};
pub use node_keys::{EdgeKind, InstKey};
