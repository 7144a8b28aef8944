//! Reports of a certificate: its bound, whether the stack fits beside static data, the need of each instance by name, and the text of its
//! explanation. Source: own. Tests: `report_tables`.
#![tactic(auto)]

mod explained;
mod json;
pub mod laws;
mod room;
mod text;

pub use explained::explanation_text;
pub use json::report_json;
pub use text::{report_text, write_name};
