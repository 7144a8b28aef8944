//! The top call: it takes words, files and a sink, and returns the exit status. Tests: `tests/end_to_end`.
#![tactic(auto)]

pub mod analysing;
pub mod answer;
pub mod attaining;
pub mod call;
pub mod clearing;
pub mod explaining;
pub mod judging;
pub mod laws;
pub mod loading;
pub mod reading;
pub mod reply;
pub mod running;
pub mod simulating;
pub mod work;

pub use call::stackbound;
pub use replies::status::Status;
