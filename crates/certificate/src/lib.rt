//! Certificates: their claim on a firmware, and when they are valid. Source: own.
#![tactic(auto)]

pub mod certificate;
pub mod form;
pub mod hulls;
pub mod instance;
pub mod laws;
pub mod limit;
pub mod version;

pub use certificate::Certificate;
pub use edge_rules::{HeldState, NodeForm, Seed, Seeded};
pub use form::Form;
pub use hulls::hulls_of;
pub use instance::Inst;
pub use limit::{Limit, MOST_CELLS, MOST_INSTANCES, MOST_NODES};
pub use version::{Version, says_device, written_version};
