//! Laws of the certificates of solved families; the answer of the analysis is unique.
#![tactic(auto)]

pub mod laws;
