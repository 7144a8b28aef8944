//! The code of the transfer function of a node: the effect of one instruction on the abstract state. Source: own. Tests:
//! `crates/node_table`.
#![tactic(auto)]

mod bits;
mod cuts;
mod data_transfer;
mod flow;
mod instruction;
pub mod leading;
mod moves;
mod pairs;
mod pointer_stores;
mod site;
mod splitting;
mod stack;
mod stores;
mod successors;
mod table;

pub use leading::local;
pub use local_rules::{CallSite, Exit, Local, Node, NodeFault, Nodes};
