//! The analyser: the least certificate of a firmware under assumptions, or the reason for having none. It computes the family at which
//! the rounds end, with least ranks and needs, and leaves out states that one edge alone determines. Source: own. Tests: `family_tables`.
#![tactic(auto)]

mod checking;
mod confirming;
mod cost;
mod fitting;
pub mod forming;
mod leading;
pub mod ordering;
pub mod rounds;
pub mod solving;
mod unfound;
mod writing;

pub use certificate::{Certificate, Limit};
pub use round_rules::Refusal;
pub use solving::solve;
