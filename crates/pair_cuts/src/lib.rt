//! Refinement by tests, if pairs are followed: the states after branches on flags, skips on a bit, `cpse`, and the pick of a jump table's
//! entry. Source: own. Tests: `crates/node_table`.
#![tactic(auto)]

pub mod cuts;
pub mod outcomes;
pub mod places;

pub use cuts::{bit_cut, equal_cut, flag_cut, pick_cut};
pub use outcomes::Outcome;
pub use places::CutPlace;
