//! Slots of a frame that may hold a live byte: their origin, and the conditions of nodes on them.

/// A node that has a slot from the start.
#[derive(Clone, Copy)]
pub struct SlotSeed {
    /// The number of the node.
    pub node: u32,
    /// The slot.
    pub slot: u16,
}

/// A node's condition on its slots: the node is clear exactly if it is met.
#[derive(Clone, Copy)]
pub enum Condition {
    /// Always met.
    Always,
    /// This slot, which is below the offset, may not hold a live byte.
    SlotFree(u16),
    /// Never met.
    Never,
}
