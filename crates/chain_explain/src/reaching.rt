//! The nodes of a family that edges reach from the node at reset.

ghost use Rattle.std.specs.Prelude.{◌≡◌, ◌≤◌, length, IfOk};
ghost use Rattle.avr_model.specs.Devices.{device_of};
ghost use Rattle.edge_rules.specs.Families.{IsCovered};
ghost use Rattle.edge_rules.specs.Views.{AreShown};
ghost use Rattle.family_edges.specs.Landings.{AreLandings};
ghost use Rattle.certificate.specs.Valid.{reset_node};
ghost use Rattle.family_graph.specs.Graphs.{AreWays, IsPeopled};
ghost use Rattle.chain_explain.specs.Moves.{kept_by, AreReachedBy};
ghost use Rattle.family_edges.specs.Tasks.{task_of};

use crate::numbering::number_of;
use crate::steps::leads;
use avr_model::listed::Listed;
use family_edges::{Filled, Task, WorkedOut};
use family_graph::{Entering, entered_by};
use local_rules::Node;
use node_keys::{InstKey, NodeKey};
use shortest_walk::reached;
use std::alloc::{AllocError, Global};

// Whether edges reach each node, by its number, from the one at reset, which exists.
pub(crate) fn marks_of(task: &Task<'_>, family: &WorkedOut) -> Result<Vec<bool>, AllocError>
    requires shown { AreShown (device_of task.now.flash.now) family.now.nodes }
    requires few { length family.now.nodes ≤ 65536 }
    requires landings { AreLandings (task_of task.now) family.now.nodes family.now.landings }
    requires reset { IsCovered family.now.nodes (reset_node task.now.assumptions.now) }
    ensures count { IfOk result (λ marks. length marks.items ≡ length family.now.nodes) }
    ensures reached { IfOk result (λ m. AreReachedBy (task_of task.now) family.now.nodes m.items) }
{
    let root = number_of(&family.nodes, &NodeKey::entry(&InstKey::root()));
    let graph = leads(task.alloc, family.landings.as_slice())?;
    reached(task.alloc, &graph, &[root as u32])
}

// The marked nodes, in order.
pub(crate) fn kept(alloc: Global, nodes: &Filled, marks: &[bool]) -> Result<Filled, AllocError>
    requires { length marks.now ≡ length nodes.now }
    ensures { IfOk result (λ kept. kept ≡ kept_by marks.now nodes.now) }
{
    let mut kept = Vec::new(alloc);
    for at in 0..nodes.count() {
        if marks[at] {
            kept.push(Node {
                key: *nodes.key(at),
                state: nodes.state(at).copy(alloc)?,
            })?;
        }
    }
    Ok(Filled::new(kept))
}

// The entries of each marked node. Each instance that a node enters has its first node.
pub(crate) fn kept_ways(
    task: &Task<'_>,
    family: &WorkedOut,
    marks: &[bool],
) -> Result<Listed<Listed<Entering>>, AllocError>
    requires count { length marks.now ≡ length family.now.nodes }
    requires landings { AreLandings (task_of task.now) family.now.nodes family.now.landings }
    requires peopled { IsPeopled (task_of task.now) family.now.nodes }
    ensures { IfOk result (AreWays (task_of task.now) (kept_by marks.now family.now.nodes)) }
{
    let all = entered_by(task, family)?;
    let ways = all.as_slice();
    let mut kept = Listed::empty(task.alloc);
    for at in 0..ways.len() {
        if marks[at] {
            kept.push(Listed::new(ways[at].as_slice().to_vec(task.alloc)?))?;
        }
    }
    Ok(kept)
}
