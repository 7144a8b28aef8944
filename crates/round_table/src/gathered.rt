//! The states that one round gathers.

ghost use Rattle.std.specs.Prelude.{◌≡◌, length, IfOk, OnOk};
ghost use Rattle.std.specs.Prelude.{map as list_map};
ghost use Rattle.std.specs.FinMap.{empty};
ghost use Rattle.node_keys.specs.Keys.{offset_of};
ghost use Rattle.round_table.specs.Families.{raised, nodes_of, node_of};

use abs_state::AbsState;
use indexmap::IndexMap;
use local_rules::Node;
use node_keys::NodeKey;
use std::alloc::{AllocError, Global};
use std::marker::Model;

/// A state for each node, the join of all that came for its key. States are not shared here, so each is raised in place. Seen as a map
/// from keys. Each state has as many slots as the offset of its key.
#[derive(Drop)]
pub struct GatheredStates {
    map: IndexMap<NodeKey, AbsState>,
}

impl Model for GatheredStates {
    ghost use Rattle.std.specs.FinMap.{FinMap, from_entries, code};
    ghost use Rattle.node_keys.specs.contracts.keys.NodeKey as node_key;
    ghost use Rattle.abs_state.specs.contracts.state.AbsState as abs_state;
    ghost use Rattle.std.specs.List.{IsDistinct};
    ghost use Rattle.std.specs.Map.{keys_of};
    ghost use Rattle.node_keys.specs.Order.{node_cmp, same_node};
    ghost use Rattle.abs_state.specs.declared.state.AbsState.{AbsState};
    ghost use Rattle.round_table.specs.Sized.{AreStatesSized};

    ghost Value = { FinMap node_cmp AbsState };

    ghost coded = { code node_key.the_row.coded abs_state.the_row.coded };

    ghost view = { λ g. from_entries g.map.entries };

    ghost invariant = { λ g. AreStatesSized (from_entries g.map.entries) × IsDistinct same_node (keys_of g.map.entries) };
}

impl GatheredStates {
    /// No nodes.
    pub fn new(alloc: Global) -> GatheredStates
        ensures { result ≡ empty }
    {
        GatheredStates {
            map: IndexMap::new(alloc),
        }
    }

    /// Joins a state into that of its node, or adds the node. Fails if memory runs out.
    pub fn raise(&mut self, node: Node) -> Result<(), AllocError>
        requires { length node.state.slots ≡ offset_of node.key.sp }
        ensures { OnOk result (self.new ≡ raised self.old node) }
    {
        match self.map.get_mut(&node.key) {
            Some(state) => {
                state.join_into(&node.state);
                Ok(())
            }
            None => {
                self.map.insert(node.key, node.state)?;
                Ok(())
            }
        }
    }

    /// The nodes, ascending by key.
    pub fn into_sorted(self, alloc: Global) -> Result<Vec<Node>, AllocError>
        ensures { IfOk result (λ all. all.items ≡ nodes_of self) }
    {
        let mut map = self.map;
        map.sort_keys()?;
        let all = nodes_in(map, alloc)?;
        Ok(all)
    }
}

// The nodes by number.
fn nodes_in(map: IndexMap<NodeKey, AbsState>, alloc: Global) -> Result<Vec<Node>, AllocError>
    ensures { IfOk result (λ all. all.items ≡ list_map node_of map.entries) }
{
    let mut all = Vec::new(alloc);
    for (key, state) in map {
        all.push(Node { key, state })?;
    }
    Ok(all)
}
