//! The parts of an explanation.

ghost use Rattle.std.specs.Prelude.{◌≡◌, ◌<◌, ◌≤◌, [], length, IfOk};
ghost use Rattle.avr_model.specs.Devices.{device_of};
ghost use Rattle.avr_model.specs.State.{SIZE};
ghost use Rattle.node_keys.specs.Keys.{offset_of};
ghost use Rattle.edge_rules.specs.Views.{AreShown};
ghost use Rattle.chain_explain.specs.Explanation.{adds_by, entry_next, IsNodePart, IsPart, AreParts};
ghost use Rattle.chain_explain.specs.Reached.{AreReached};
ghost use Rattle.chain_explain.specs.Moves.{AreMoves, IsThere, AreThere, moves_by};
ghost use Rattle.family_edges.specs.Tasks.{task_of};

use crate::explanation::{Part, PartPoint};
use crate::way::way;
use avr_model::listed::Listed;
use family_edges::{Filled, Task, WorkedOut};
use instance_graph::{GraphWay, Link};
use node_keys::{InstKey, NodeKey};
use std::alloc::AllocError;

// The bytes that a link at this node adds; a return address takes `back` bytes.
fn adds(key: &NodeKey, way: Option<GraphWay>, back: u8) -> u16
    requires { offset_of key.now.sp ≤ SIZE }
    ensures { result ≡ adds_by back (offset_of key.now.sp) way }
{
    match way {
        None => key.sp.offset(),
        Some(_) => key.sp.offset() + u16::from(back),
    }
}

// The part for a link of the chain at a node.
fn node_part(
    task: &Task<'_>,
    family: &WorkedOut,
    reached: &Filled,
    link: &Link,
) -> Result<Part, AllocError>
    requires shown { AreShown (device_of task.now.flash.now) family.now.nodes }
    requires moves { AreMoves (task_of task.now) family.now.nodes (moves_by family.now.landings) }
    requires reached { AreReached (task_of task.now) family.now.nodes reached.now }
    requires there { link.now.node < length reached.now }
    ensures { IfOk result (IsNodePart (task_of task.now) family.now.nodes reached.now link.now) }
{
    let key = reached.key(link.node as usize);
    let walk = way(task, family, key)?;
    Ok(Part {
        inst: key.inst,
        point: PartPoint::Node(key.pc, walk),
        adds: adds(key, link.way, task.flash.device().back()),
    })
}

// The word with which the instance of the next link begins.
fn entry_next(reached: &Filled, rest: &[Link]) -> u32
    ensures { result ≡ entry_next reached.now rest.now }
{
    let Some(link) = rest.first() else {
        return 0;
    };
    match reached.as_slice().get(link.node as usize) {
        None => 0,
        Some(node) => node.key.inst.entry,
    }
}

// The part for a link of the chain, which these links follow.
fn part(
    task: &Task<'_>,
    family: &WorkedOut,
    reached: &Filled,
    link: &Link,
    rest: &[Link],
) -> Result<Part, AllocError>
    requires shown { AreShown (device_of task.now.flash.now) family.now.nodes }
    requires moves { AreMoves (task_of task.now) family.now.nodes (moves_by family.now.landings) }
    requires reached { AreReached (task_of task.now) family.now.nodes reached.now }
    requires there { IsThere reached.now link.now link.now.way }
    ensures { IfOk result (IsPart (task_of task.now) family.now.nodes reached.now link.now rest.now) }
{
    match link.way {
        Some(GraphWay::Recur) => Ok(Part {
            inst: InstKey::root(),
            point: PartPoint::Recur(entry_next(reached, rest)),
            adds: link.depth + u16::from(task.flash.device().back()),
        }),
        Some(GraphWay::Enters(_)) | None => node_part(task, family, reached, link),
    }
}

// The parts for the links of a chain over the reached nodes.
pub(crate) fn parts(
    task: &Task<'_>,
    family: &WorkedOut,
    reached: &Filled,
    links: &[Link],
) -> Result<Listed<Part>, AllocError>
    requires shown { AreShown (device_of task.now.flash.now) family.now.nodes }
    requires moves { AreMoves (task_of task.now) family.now.nodes (moves_by family.now.landings) }
    requires reached { AreReached (task_of task.now) family.now.nodes reached.now }
    requires there { AreThere reached.now links.now }
    ensures { IfOk result (AreParts (task_of task.now) family.now.nodes reached.now links.now []) }
{
    let mut parts = Listed::empty(task.alloc);
    for at in 0..links.len() {
        let part = part(task, family, reached, &links[at], &links[at + 1..])?;
        parts.push(part)?;
    }
    Ok(parts)
}
