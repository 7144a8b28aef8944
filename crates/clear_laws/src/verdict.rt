//! Whether a firmware is clear.

/// Whether each node of a certificate is clear.
#[derive(Clone, Copy)]
pub enum ClearVerdict {
    /// All are: no step can be flagged.
    Clear,
    /// This node, the first that isn't, counted from 0; and its word address.
    Unclear(u32, u32),
}
