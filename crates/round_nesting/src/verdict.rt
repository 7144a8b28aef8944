//! Verdicts on the nesting of instances.

/// The verdict on the nesting of a family's instances. Words are word addresses of flash. Source: own.
#[derive(Clone, Copy, PartialEq, Eq, Drop)]
pub enum NestingVerdict {
    /// No instance is on a cycle, and the root's need is at most the size of the device's SRAM.
    Nests,
    /// An instance of this vector, the least on a cycle, is entered again; it begins at this word.
    ReEntry(u8, u32),
    /// No vector's instance is on a cycle, but one that begins at this word, the least such, is.
    Recursion(u32),
    /// No instance is on a cycle, and the root's need, given here, exceeds the size of the device's SRAM.
    TooDeep(u32),
}
