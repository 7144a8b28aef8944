//! The words of certificates on register pairs: their one spelling, reader and writer. Source: own. Tests: `text_tables`.
#![tactic(auto)]

pub mod digits;
pub mod laws;
pub mod reading;
pub mod writing;

pub use digits::{four_digits, two_digits};
pub use reading::{facts_of, register_of};
pub use writing::write_facts;
