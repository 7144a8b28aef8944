//! The transfer function of the pair domain for one pair: the interval after an instruction, and the hulls of written pairs. Source: own.
//! Tests: `crates/node_table`.
#![tactic(auto)]

pub mod flags_set;
pub mod hulls;
mod rows;
pub mod told;

pub use flags_set::{sets_carry, sets_flags};
pub use hulls::hull_by;
pub use told::told_by;
