//! The family of a certificate, its graph of instances, from which needs are computed, and the deepest chain. Source: own. Tests:
//! `family_tables`.
#![tactic(auto)]

pub mod building;
pub mod deepest;
pub mod entering;
pub mod laws;
mod numbering;
pub mod rooted;
pub mod worked;

pub use building::graph_of;
pub use deepest::{Deepest, deepest_chain};
pub use entering::{Entering, entered_by};
pub use instance_graph::{ClosedNode, Entered, Graph, GraphInst};
pub use rooted::are_rooted;
pub use worked::worked_of;
