//! The limits of certificates. Source: own.

/// The most instances.
pub const MOST_INSTANCES: u64 = 65_536;

/// The most nodes.
pub const MOST_NODES: u64 = 65_536;

/// The most cells, one for each node and one for each byte of its offset.
pub const MOST_CELLS: u64 = 8_388_608;

/// The limit that a certificate exceeds.
#[derive(Clone, Copy, Debug, PartialEq, Eq, Drop)]
pub enum Limit {
    /// Nodes: more than 65,536.
    Nodes,
    /// Cells: more than 8,388,608.
    Cells,
}
