//! The words at which a step of a firmware may be flagged, and why a run is never flagged if each node of a sound family is clear:
//! definitions, their types, and laws. Source: own.
#![tactic(auto)]

pub mod laws;
pub mod place;
pub mod slots;
pub mod stores;
pub mod verdict;

pub use place::FlaggedPlace;
pub use verdict::ClearVerdict;
