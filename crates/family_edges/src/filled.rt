//! Nodes with their states, in the order of keys, numbered from 0.

ghost use Rattle.std.specs.Prelude.{◌≡◌, ◌<◌, length, Some, slice_get};
ghost use Rattle.std.specs.Option.{option_map};
ghost use Rattle.edge_rules.specs.Views.{IsSpan, key_of, state_of, index_of};
ghost use Rattle.family_edges.specs.Shown.{AreOfSomeDevice};

use abs_state::AbsState;
use local_rules::Node;
use node_keys::{InstKey, NodeKey};
use std::marker::Model;

/// Nodes with their states, strictly ascending by key. Seen as their list.
#[derive(Drop)]
pub struct Filled {
    items: Vec<Node>,
}

impl Model for Filled {
    ghost use Rattle.std.specs.Prelude.{List};
    ghost use Rattle.local_rules.specs.declared.local.Node.{Node};
    ghost use Rattle.family_edges.specs.Shown.{AreOfSomeDevice};

    ghost Value = { List Node };

    ghost view = { λ s. s.items.items };

    ghost invariant = { λ s. AreOfSomeDevice s.items.items };
}

impl Filled {
    /// These nodes; they must ascend strictly by key.
    pub fn new(items: Vec<Node>) -> Filled
        requires { AreOfSomeDevice items.items }
        ensures { result ≡ items.items }
    {
        Filled { items }
    }

    /// The number of nodes.
    pub fn count(&self) -> usize
        ensures count { result ≡ length self.now }
        ensures shown { AreOfSomeDevice self.now }
    {
        self.items.len()
    }

    /// The key of the node of this number.
    pub fn key(&self, at: usize) -> &NodeKey
        requires { at < length self.now }
        ensures { option_map key_of (slice_get self.now at) ≡ Some result.now }
    {
        &self.items[at].key
    }

    /// The state of the node of this number.
    pub fn state(&self, at: usize) -> &AbsState
        requires { at < length self.now }
        ensures { option_map state_of (slice_get self.now at) ≡ Some result.now }
    {
        &self.items[at].state
    }

    /// The number of the node of this key.
    pub fn find(&self, key: &NodeKey) -> Option<usize>
        ensures { result ≡ index_of key.now self.now }
    {
        let nodes = self.items.as_slice();
        let at = nodes.partition_point(|node| node.key.cmp(key).is_lt());
        if at < nodes.len() && nodes[at].key == *key {
            return Some(at);
        }
        None
    }

    /// The number of the instance's first node and the one after its last; equal if it has none.
    pub fn span(&self, inst: &InstKey) -> (usize, usize)
        ensures { IsSpan self.now inst.now result.0 result.1 }
    {
        let nodes = self.items.as_slice();
        let low = nodes.partition_point(|node| node.key.inst.cmp(inst).is_lt());
        let high = nodes.partition_point(|node| node.key.inst.cmp(inst).is_le());
        (low, high)
    }

    /// The nodes in order.
    pub fn as_slice(&self) -> &[Node]
        ensures { result.now ≡ self.now }
    {
        &self.items
    }

    /// Returns the vector of the nodes.
    pub fn into_vec(self) -> Vec<Node>
        ensures { result.items ≡ self }
    {
        self.items
    }

    /// The number of the node of this key. Four nodes from the number `first` on are searched first.
    pub fn find_from(&self, first: usize, key: &NodeKey) -> Option<usize>
        ensures { result ≡ index_of key.now self.now }
    {
        let end = self.items.len().min(first.saturating_add(4));
        for at in first..end {
            if self.items[at].key == *key {
                return Some(at);
            }
        }
        self.find(key)
    }
}

/// The answer of an expansion.
#[derive(Drop)]
pub enum Expanded {
    /// All nodes with their expansions.
    Whole(Filled),
    /// The number of the first node without an expansion, counted from 0.
    Missing(u32),
}
