//! The edges of a family of nodes, and the expansion of nodes that are given by earlier ones. Source: own. Tests: `family_tables`.
#![tactic(auto)]

pub mod adding;
pub mod callers;
pub mod exit_list;
pub mod expanding;
pub mod filled;
mod known;
pub mod landing;
pub mod laws;
pub mod leaving;
pub mod successors;
pub mod task;
pub mod ways;
pub mod worked;

pub use adding::{Leavers, Start, add_interprocedural, add_moves, add_return};
pub use callers::{Caller, Leaver, returned};
pub use edge_rules::{Edge, EdgeKind, NodeForm, Seed, Seeded};
pub use exit_list::Leaving;
pub use expanding::expand;
pub use filled::{Expanded, Filled};
pub use landing::Landing;
pub use leaving::{all_exits, exits};
pub use successors::{next, next_with};
pub use task::Task;
pub use worked::WorkedOut;
