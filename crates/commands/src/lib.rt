//! The commands of the program, and which words are one, as `clap` parses them. Tests: `text_tables`, and the rows `usage_..` of
//! `tests/end_to_end`.
#![tactic(auto)]

mod about;
mod command;
mod line;
mod reading;
mod size;
mod syntax;
mod words;

pub use about::about_text;
pub use command::{Command, Request, Topic, Work};
pub use size::{ChoiceCount, Size};
pub use words::command_of;
