//! Explanation of a bound: the deepest chain of a certificate's reached nodes, with a shortest path to each point. Source: own. Tests: the
//! rows `explain_..` of `tests/end_to_end`.
#![tactic(auto)]

pub mod explaining;
pub mod explanation;
pub mod laws;
mod numbering;
mod parts;
mod reaching;
mod steps;
mod way;

pub use explaining::{explain, explain_family};
pub use explanation::{Explanation, Part, PartPoint};
