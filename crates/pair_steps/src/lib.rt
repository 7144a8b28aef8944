//! The transfer function of the pair domain as code: refines the state of the plain rules. Source: own. Tests: `crates/node_table`.
#![tactic(auto)]

mod flash_bytes;
mod refining;
mod tags;
mod values;

pub use refining::refine;
