//! The writer of certificates, and of the words of keys. Source: own.
#![tactic(auto)]

mod keys;
pub mod laws;
mod lines;
mod state;
mod values;
mod writing;

pub use keys::{write_inst_key, write_key};
pub use writing::write;
