//! Reachability in a numbered graph, and the first of the shortest walks. Tests: `tests/end_to_end`, the rows of `explain`.
#![tactic(auto)]

mod distances;
pub mod laws;
mod nearest;
pub mod reach;
mod reversed;
pub mod walk;

pub use reach::reached;
pub use walk::shortest_walk;
