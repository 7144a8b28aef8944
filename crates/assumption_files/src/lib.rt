//! The texts of assumption lists, and the possible targets of indirect transfers. Tests: `text_tables`.
#![tactic(auto)]

pub mod fault;
pub mod laws;
pub mod reading;
pub mod target_list;
pub mod transfer;
pub mod word_addresses;
pub mod writing;

pub use fault::AssumeText;
pub use reading::{MOST_ENTRIES, entry_of, read};
pub use target_list::{Targets, TooMany};
pub use transfer::{targets, targets_on};
pub use word_addresses::{word_address_of, write_word_address};
pub use writing::write;
