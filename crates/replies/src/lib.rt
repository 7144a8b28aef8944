//! The answers of the program: the printed lines, and the one answer to a command by the contents of its files. Tests:
//! `tests/end_to_end`.
#![tactic(auto)]

pub mod causes;
pub mod laws;
pub mod places;
pub mod raw;
pub mod status;
pub mod texts;

pub use raw::RawRefusal;
pub use status::Status;
