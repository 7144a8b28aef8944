//! States stored once: equal states share a number, which stays while other states come and go, and each state has a count of uses.
//! Tests: `value_tables`.
#![tactic(auto)]

pub mod laws;
mod numbers;
mod pool;
mod shared;

pub use pool::Pool;
