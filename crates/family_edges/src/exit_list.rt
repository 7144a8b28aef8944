//! Exits of nodes.

use avr_model::listed::Listed;
use local_rules::{Exit, NodeFault};

/// The exits of a family's nodes, or the first fault.
#[derive(Drop)]
pub enum Leaving {
    /// No node has a fault; the exits by number, none for a node that does not return.
    All(Listed<Option<Exit>>),
    /// The number of the first node with a fault, counted from 0, and the fault.
    Fault(usize, NodeFault),
}
