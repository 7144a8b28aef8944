//! The transfer function of the pair domain, as definitions: facts that writes end, the interval and tags after an instruction, and how the
//! state of the plain rules is refined. Source: own.
#![tactic(auto)]

pub mod told;

pub use told::Told;
