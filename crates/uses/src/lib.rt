//! One proved caller of each crate to build on (docs/PROOF.md), by the public contracts below alone.
#![tactic(auto)]

pub mod analysed;
pub mod arithmetic;
pub mod certificates;
pub mod digits;
pub mod judged;
pub mod listing;
pub mod lists;
pub mod narrowed;
pub mod nesting;
pub mod replayed;
pub mod room;
pub mod trial;
