//! Certificates as text: their reader, and their writer from below. Source: own. Tests: `text_tables`.
#![tactic(auto)]

pub mod fault;
mod gathered;
pub mod laws;
mod lines;
mod reading;

pub use cert_writing::{write, write_inst_key, write_key};
pub use certificate::{Certificate, Inst, Limit, Version};
pub use fault::CertFault;
pub use reading::read;
