//! Guided trials: runs from reset whose choices follow the bytes that the firmware distinguishes, a certificate's needs and a sequence of
//! numbers; and the first trial that reaches the certificate's bound. Source: own. Tests: `tests/end_to_end`, the rows of `attain`.
#![tactic(auto)]

mod attaining;
mod choosing;
mod guide;
pub mod laws;
mod numbers;
mod telling;
mod trial;

pub use attaining::{AttainFault, attain};
pub use guide::{Candidate, Candidates, Guide, ToldBytes, TrialMoment};
