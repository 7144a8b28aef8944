//! Nodes joined into a family.

ghost use Rattle.std.specs.Prelude.{◌≡◌, ◌+◌, ◌≤◌, ◌∷◌, [], length, IfOk, OnOk};
ghost use Rattle.round_rules.specs.Families.{cells};
ghost use Rattle.round_laws.specs.Steps.{raised, raised_all, HaveOwnKeys, weight};
ghost use Rattle.round_steps.specs.Gathers.{IsOwnState};
ghost use Rattle.round_steps.specs.Joins.{keys_of, AreNew, FitTogether, KeptBut, StaysFormed};
ghost use Rattle.family_edges.specs.Clauses.{Grows};

use local_rules::Node;
use node_keys::NodeKey;
use round_table::Table;
use std::alloc::{AllocError, Global};

// Joins one node into the table, counts its cells, and notes its key.
fn join_one(
    alloc: Global,
    table: &mut Table,
    counted: &mut u64,
    changed: &mut Vec<NodeKey>,
    node: Node,
) -> Result<(), AllocError>
    requires count { counted.old ≡ cells table.old }
    requires node { IsOwnState node.key node.state }
    ensures joined { OnOk result (table.new ≡ raised table.old node) }
    ensures count { OnOk result (counted.new ≡ cells table.new) }
    ensures key { Grows result changed.old.items changed.new.items (node.key ∷ []) }
{
    changed.push(node.key)?;
    let offset = node.key.offset();
    let before = table.len();
    table.raise(alloc, node)?;
    if before < table.len() {
        let Some(more) = counted.checked_add(1 + u64::from(offset)) else {
            return Err(AllocError);
        };
        *counted = more;
    }
    Ok(())
}

/// Joins nodes into a family and counts its cells. None of the nodes lands in the family, and no two have the same key. Returns their
/// keys; each of these nodes changed.
pub fn join_all(
    alloc: Global,
    table: &mut Table,
    counted: &mut u64,
    nodes: Vec<Node>,
) -> Result<Vec<NodeKey>, AllocError>
    requires count { counted.old ≡ cells table.old }
    requires fit { FitTogether table.old nodes.items }
    requires fresh { AreNew table.old nodes.items }
    requires apart { HaveOwnKeys nodes.items }
    ensures joined { OnOk result (table.new ≡ raised_all table.old nodes.items) }
    ensures count { OnOk result (counted.new ≡ cells table.new) }
    ensures formed { StaysFormed result table.old nodes.items table.new }
    ensures keys { IfOk result (λ changed. changed.items ≡ keys_of nodes.items) }
    ensures kept { IfOk result (λ changed. KeptBut table.old table.new changed.items) }
    ensures more { IfOk result (λ changed. weight table.old + length changed.items ≤ weight table.new) }
{
    let mut changed = Vec::new(alloc);
    for node in nodes {
        join_one(alloc, table, counted, &mut changed, node)?;
    }
    Ok(changed)
}
