//! Crossings by instance: the nodes that enter or leave it.

ghost use Rattle.std.specs.Prelude.{◌≡◌, ◌∷◌, [], IfSome, IfNone, IfOk, OnOk};
ghost use Rattle.node_keys.specs.Hashes.{node_hash};
ghost use Rattle.node_keys.specs.Hashes.{first_alike};
ghost use Rattle.round_table.specs.Crossings.{crossings_at, IsCrossingAdded, AreCrossingsOnce};

use indexmap::{IndexMap, IndexSet};
use local_rules::Exit;
use node_keys::{EdgeKind, InstKey, NodeKey};
use std::alloc::{AllocError, Global};
use std::hash::{Hash, Hasher};
use std::marker::Model;

/// A node that enters an instance or leaves its own, with the data for returns.
#[derive(Clone, Copy, PartialEq, Eq)]
pub struct Crossing {
    /// The node.
    pub node: NodeKey,
    /// How it enters the instance, or `Return` if it leaves its own.
    pub kind: EdgeKind,
    /// Its return address, or its own word if it leaves its own instance.
    pub back: u32,
    /// Its exit, if it leaves its own instance.
    pub exit: Exit,
}

impl Hash for Crossing {
    ghost hash_input = { λ c. node_hash c.node };

    ghost respects_eq = { λ a b. first_alike a.node b.node _ };

    fn hash<H: Hasher>(&self, state: &mut H) {
        self.node.hash(state);
    }
}

// The set of one crossing.
fn one(alloc: Global, crossing: Crossing) -> Result<IndexSet<Crossing>, AllocError>
    ensures { IfOk result (λ set. set.keys ≡ crossing ∷ []) }
{
    let mut first = IndexSet::new(alloc);
    first.insert(crossing)?;
    Ok(first)
}

/// Crossings by instance, each once. Seen as the list of instances with their crossings.
#[derive(Drop)]
pub struct Crossings {
    map: IndexMap<InstKey, IndexSet<Crossing>>,
}

impl Model for Crossings {
    ghost use Rattle.round_table.specs.Crossings.{Groups, groups_of};

    ghost Value = { Groups };

    ghost view = { λ s. groups_of s.map.entries };
}

impl Crossings {
    /// No crossings.
    pub fn new(alloc: Global) -> Crossings
        ensures { result ≡ [] }
    {
        Crossings {
            map: IndexMap::new(alloc),
        }
    }

    /// Adds a crossing of an instance, unless it is present.
    pub fn add(
        &mut self,
        alloc: Global,
        inst: InstKey,
        crossing: Crossing,
    ) -> Result<(), AllocError>
        ensures { OnOk result (IsCrossingAdded self.old inst crossing self.new) }
    {
        match self.map.get_mut(&inst) {
            Some(set) => {
                set.insert(crossing)?;
                Ok(())
            }
            None => {
                let set = one(alloc, crossing)?;
                self.map.insert(inst, set)?;
                Ok(())
            }
        }
    }

    /// The crossings of an instance, if it has any, each once.
    pub fn at(&self, inst: &InstKey) -> Option<&[Crossing]>
        ensures some { IfSome result (λ list. list.now ≡ crossings_at self.now inst.now) }
        ensures none { IfNone result (crossings_at self.now inst.now ≡ []) }
        ensures once { IfSome result (λ list. AreCrossingsOnce list.now) }
    {
        match self.map.get(inst) {
            Some(set) => Some(set.as_slice()),
            None => None,
        }
    }
}
