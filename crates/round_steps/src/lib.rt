//! One round: it visits nodes, notes what it finds, and joins the targets of their edges into the family. Source: own. Tests:
//! `family_tables`.
#![tactic(auto)]

pub mod joining;
pub mod looking;
pub mod noting;
pub mod targets;

pub use joining::join_all;
pub use looking::{Look, SeenState, look_all};
pub use noting::Notes;
