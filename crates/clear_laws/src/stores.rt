//! The address of a store, and the numbers of a pointer.

/// Addresses from the first to the last.
#[derive(Clone, Copy)]
pub struct Span {
    /// The first of them.
    pub first: u16,
    /// The last of them, at least the first.
    pub last: u16,
}

/// The possible addresses of a store.
#[derive(Clone, Copy)]
pub enum Reach {
    /// None: the pointer's bits and ranges permit no number.
    Nothing,
    /// These, all within 0 to 0xFFFF.
    Within(Span),
    /// Some may be outside 0 to 0xFFFF.
    Beyond,
}

/// The aim of `st`, `std` or `sts`.
#[derive(Clone, Copy)]
pub struct Aim {
    /// Its possible addresses.
    pub reach: Reach,
    /// Its slot of the running frame, if it is known.
    pub slot: Option<u16>,
}

/// A register pair through which an instruction stores, jumps or calls.
#[derive(Clone, Copy)]
pub enum PointerPair {
    /// r26 and r27.
    X,
    /// r28 and r29.
    Y,
    /// r30 and r31.
    Z,
}

/// The numbers that a pointer may have.
#[derive(Clone, Copy)]
pub struct PointerNumbers {
    /// Its register pair.
    pub pair: PointerPair,
    /// From the least to the greatest of them.
    pub numbers: Span,
}
