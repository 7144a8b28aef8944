//! The entrances from each instance.

ghost use Rattle.std.specs.Prelude.{◌≡◌, ◌∷◌, [], IfSome, IfNone, IfOk, OnOk};
ghost use Rattle.round_nesting.specs.Exits.{exits_at, AreExitsKept, IsExitAdded};

use crate::notes::NotedEntrance;
use indexmap::IndexMap;
use node_keys::InstKey;
use std::alloc::{AllocError, Global};

// Noted entrances by the upper instance.
#[derive(Drop)]
pub(crate) struct Exits {
    pub map: IndexMap<InstKey, Vec<NotedEntrance>>,
}

// The list of one entrance.
fn one(alloc: Global, entrance: NotedEntrance) -> Result<Vec<NotedEntrance>, AllocError>
    ensures { IfOk result (λ list. list.items ≡ entrance ∷ []) }
{
    let mut list = Vec::new(alloc);
    list.push(entrance)?;
    Ok(list)
}

impl Exits {
    /// No entrances.
    pub fn new(alloc: Global) -> Exits {
        Exits {
            map: IndexMap::new(alloc),
        }
    }

    /// Adds an entrance.
    pub fn add(&mut self, alloc: Global, entrance: NotedEntrance) -> Result<(), AllocError>
        ensures kept { AreExitsKept self.old.map.entries self.new.map.entries }
        ensures added { OnOk result (IsExitAdded self.old.map.entries entrance self.new.map.entries) }
    {
        let from = *entrance.from();
        match self.map.get_mut(&from) {
            Some(list) => {
                list.push(entrance)?;
                Ok(())
            }
            None => {
                let list = one(alloc, entrance)?;
                self.map.insert(from, list)?;
                Ok(())
            }
        }
    }

    /// The entrances from an instance, if it has any.
    pub fn at(&self, inst: &InstKey) -> Option<&[NotedEntrance]>
        ensures some { IfSome result (λ list. list.now ≡ exits_at self.now.map.entries inst.now) }
        ensures none { IfNone result (exits_at self.now.map.entries inst.now ≡ []) }
    {
        match self.map.get(inst) {
            Some(list) => Some(list.as_slice()),
            None => None,
        }
    }
}
