//! The words of certificates: the one spelling of values, keys and forms of nodes, the certificate's text from them, and readers of the
//! words. Source: own. Tests: `text_tables`.
#![tactic(auto)]

mod keys;
pub mod laws;
mod state;
mod values;

pub use keys::{inst_key_of, masks_digits, node_key_of};
pub use state::node_form_of;
