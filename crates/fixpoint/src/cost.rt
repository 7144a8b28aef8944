//! What visits cost. The orders of work take turns by it. Source: own.

use node_keys::NodeKey;
use round_table::Table;

/// A visit copies, joins and compares states. Apart from the slots of the node's frame it costs as much as this many slots, as measured.
pub(crate) const VISIT: u64 = 100;

/// The cost of a visit of the node, in slots.
pub(crate) fn visit_cost(key: &NodeKey) -> u64 {
    VISIT + u64::from(key.offset())
}

/// The cost of a visit of each of these nodes.
pub(crate) fn visits_cost(keys: &[NodeKey]) -> u64 {
    let mut cost: u64 = 0;
    for key in keys {
        cost = cost.saturating_add(visit_cost(key));
    }
    cost
}

/// The cost of one visit of each node of the table, which has so many cells: one for each node and one for each slot.
pub(crate) fn table_cost(table: &Table, cells: u64) -> u64 {
    let nodes = table.len() as u64;
    cells.saturating_add(nodes.saturating_mul(VISIT - 1))
}
