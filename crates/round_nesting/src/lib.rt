//! The nesting of a growing family's instances: which enters which, and whether some are on a cycle or need too much. Source: own. Tests:
//! `family_tables`.
#![tactic(auto)]

mod allowances;
mod drawing;
mod exits;
mod judging;
pub mod laws;
pub mod nesting;
mod notes;
pub mod verdict;

pub use nesting::Nesting;
pub use verdict::NestingVerdict;
