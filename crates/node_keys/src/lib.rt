//! Keys of instances and nodes, and the enable bits that a write may leave. Tests: `value_tables`.
#![tactic(auto)]

pub mod keys;
pub mod laws;
pub mod splits;
pub mod waking;

pub use keys::{EdgeKind, High, InstKey, Kind, NodeKey, SpForm};
pub use splits::split;
pub use waking::{may_enable, may_enable_barred, may_have, widened, without};
