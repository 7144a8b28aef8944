//! The interrupts of the deepest chain of a certificate's family.

ghost use Rattle.std.specs.Prelude.{◌≡◌, ◌++◌, ◌≤◌, IfOk, OnOk, length};
ghost use Rattle.family_edges.specs.Landings.{AreLandings};
ghost use Rattle.certificate.specs.Claims.{IsClaim};
ghost use Rattle.certificate.specs.Valid.{MeetsConditions};
ghost use Rattle.witness_search.specs.Chains.{interrupt_of, interrupts_of, AreInterrupts};
ghost use Rattle.family_edges.specs.Tasks.{task_of};

use crate::waypoint::Waypoint;
use certificate::Certificate;
use family_edges::{Filled, Task, WorkedOut};
use family_graph::{are_rooted, deepest_chain, entered_by};
use flash_image::Flash;
use instance_graph::{GraphWay, Link};
use node_keys::EdgeKind;
use std::alloc::AllocError;

// The interrupt by which the chain continues from a place, if it is one.
fn add_interrupt(
    flash: &Flash,
    nodes: &Filled,
    link: &Link,
    points: &mut Vec<Waypoint>,
) -> Result<(), AllocError>
    ensures { OnOk result (points.new.items ≡ points.old.items ++ interrupt_of flash.now nodes.now link.now) }
{
    if let Some(GraphWay::Enters(EdgeKind::Interrupt(vector, clears))) = link.way {
        if let Some(node) = nodes.as_slice().get(link.node as usize) {
            points.push(Waypoint {
                pc: node.key.pc,
                masks: node.key.masks,
                depth: link.depth,
                end: flash.device().ramend(),
                vector,
                clears,
            })?;
        }
    }
    Ok(())
}

// The interrupts of a chain.
fn interrupts(task: &Task<'_>, nodes: &Filled, links: &[Link]) -> Result<Vec<Waypoint>, AllocError>
    ensures { IfOk result (λ points. points.items ≡ interrupts_of task.now.flash.now nodes.now links.now) }
{
    let mut points = Vec::new(task.alloc);
    for link in links {
        add_interrupt(task.flash, nodes, link, &mut points)?;
    }
    Ok(points)
}

// The interrupts of the deepest chain of a certificate's family, whose nodes meet the conditions; none if a cut instance lacks its first
// node, which is so for no family of the rounds.
pub(crate) fn waypoints(
    task: &Task<'_>,
    certificate: &Certificate,
    family: &WorkedOut,
) -> Result<Vec<Waypoint>, AllocError>
    requires claim { IsClaim certificate.now }
    requires few { length family.now.nodes ≤ 65536 }
    requires meets { MeetsConditions (task_of task.now) certificate.now family.now.nodes }
    requires landings { AreLandings (task_of task.now) family.now.nodes family.now.landings }
    ensures { IfOk result (λ points. AreInterrupts (task_of task.now) family.now.nodes points.items) }
{
    if !are_rooted(task, &family.nodes) {
        return Ok(Vec::new(task.alloc));
    }
    let ways = entered_by(task, family)?;
    let deepest = deepest_chain(task, certificate, &family.nodes, &ways)?;
    interrupts(task, &family.nodes, deepest.links.as_slice())
}
