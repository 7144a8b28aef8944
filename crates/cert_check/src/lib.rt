//! The checker: it judges a certificate for a firmware under assumptions, and trusts nobody who made it. Tests: `family_tables`.
#![tactic(auto)]

mod attaining;
mod demand;
mod gathering;
mod judging;
mod landing;
pub mod laws;
mod reading;
pub mod verdict;
mod weighing;

pub use attaining::is_attained;
pub use judging::{judge, judge_family};
pub use verdict::{Judgement, Reason};
