//! Rank and need of one instance.

/// The rank and the need of an instance.
#[derive(Clone, Copy)]
pub struct Found {
    /// The greatest number of entries below this instance.
    pub rank: u32,
    /// The greatest number of bytes that the stack pointer falls below the base.
    pub need: u32,
}
