//! The search for a schedule whose run is as deep as a certificate's bound: trials along the deepest chain of entries. Source: own.
//! Tests: `family_tables`.
#![tactic(auto)]

pub mod chain;
pub mod laws;
mod mark;
mod searching;
pub mod trial;
pub mod waypoint;

pub use searching::search;
pub use trial::first_trial;
pub use waypoint::Waypoint;
