//! Laws of the rounds that compute the least family, of the nodes that they reach, and of the graph of a family's instances.
#![tactic(auto)]

pub mod laws;
