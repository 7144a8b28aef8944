//! Laws of the transfer function of the pair domain and of cuts by tests: they are sound and monotone. Source: own.
#![tactic(auto)]

pub mod cut_laws;
pub mod laws;
