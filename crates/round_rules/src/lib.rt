//! The rounds that compute the least family of a firmware, and how they end: definitions. Source: own.
#![tactic(auto)]

pub mod refusal;

pub use certificate::Limit;
pub use refusal::Refusal;
