//! Families with their landings.

ghost use Rattle.std.specs.Prelude.{◌≡◌, ◌≤◌, length, IfOk};
ghost use Rattle.edge_rules.specs.Families.{AreFaultless};
ghost use Rattle.family_edges.specs.Exits.{AreExits};
ghost use Rattle.family_edges.specs.Landings.{AreLandings};
ghost use Rattle.family_edges.specs.Tasks.{task_of};

use crate::filled::Filled;
use crate::landing::{Landing, landings_of};
use crate::leaving::all_exits;
use crate::successors::next_with;
use crate::task::Task;
use avr_model::listed::Listed;
use local_rules::Exit;
use std::alloc::AllocError;

/// A family of nodes, none of which has a fault, with the landings of their edges, computed once.
#[derive(Drop)]
pub struct WorkedOut {
    /// The nodes with their states.
    pub nodes: Filled,
    /// The landings of each node's edges, by number.
    pub landings: Listed<Listed<Landing>>,
}

// The landings of edges, with these exits of the nodes.
fn landings_with(
    task: &Task<'_>,
    nodes: &Filled,
    exits: &Listed<Option<Exit>>,
) -> Result<Listed<Listed<Landing>>, AllocError>
    requires few { length nodes.now ≤ 65536 }
    requires taken { AreExits (task_of task.now) nodes.now exits.now }
    ensures { IfOk result (λ all. AreLandings (task_of task.now) nodes.now all) }
{
    let mut all = Listed::empty(task.alloc);
    for at in 0..nodes.count() {
        let edges = next_with(task, nodes, at, exits)?;
        let landings = landings_of(task.alloc, nodes, at + 1, edges.as_slice())?;
        all.push(landings)?;
    }
    Ok(all)
}

// The landings of edges, if no node has a fault.
fn all_landings(task: &Task<'_>, nodes: &Filled) -> Result<Listed<Listed<Landing>>, AllocError>
    requires few { length nodes.now ≤ 65536 }
    requires faultless { AreFaultless (task_of task.now) nodes.now }
    ensures { IfOk result (λ all. AreLandings (task_of task.now) nodes.now all) }
{
    let exits = all_exits(task, nodes)?;
    landings_with(task, nodes, &exits)
}

impl WorkedOut {
    /// The family of these nodes, at most 65,536, none of which may have a fault. The local part of each is computed twice.
    pub fn of(task: &Task<'_>, nodes: Filled) -> Result<WorkedOut, AllocError>
        requires few { length nodes ≤ 65536 }
        requires faultless { AreFaultless (task_of task.now) nodes }
        ensures nodes { IfOk result (λ worked. worked.nodes ≡ nodes) }
        ensures landings { IfOk result (λ worked. AreLandings (task_of task.now) nodes worked.landings) }
    {
        match all_landings(task, &nodes) {
            Ok(landings) => Ok(WorkedOut { nodes, landings }),
            Err(error) => {
                drop(nodes);
                Err(error)
            }
        }
    }
}
