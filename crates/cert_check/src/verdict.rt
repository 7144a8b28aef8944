//! Judgements on a certificate.

use node_keys::NodeKey;

/// The reason for a refusal. Nodes and instances are numbered from 0 in order.
#[derive(Clone, Copy)]
pub enum Reason {
    /// The certificate is for another device.
    Device,
    /// The root's node is missing, or its state is not above that at reset.
    Root,
    /// The first node with a fault, and its cause (1, 4, 5, 6 or 8).
    Node(u32, u8),
    /// The first node with an edge that lands nowhere, and the least key of such an edge: no node of this key has a state above the
    /// edge's.
    Edge(u32, NodeKey),
    /// The first instance whose rank is not above that of one that it enters, and the least such one.
    Rank(u32, u32),
    /// The first instance whose need is too low; the least that suffices, in bytes.
    Need(u32, u32),
    /// The bound is below the root's need, given here, or above the size of the device's SRAM.
    Bound(u32),
    /// The assumptions are not those of the call.
    Assumptions,
    /// The first node without an expansion: it comes from an earlier node that does not lead to it.
    Expansion(u32),
}

/// A judgement on a certificate, but for its schedule: accepted with its bound or its family, or rejected.
#[derive(Drop)]
pub enum Judgement<T> {
    /// All conditions hold.
    Accepted(T),
    /// The first reason against it.
    Rejected(Reason),
}
