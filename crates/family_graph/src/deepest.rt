//! The deepest chain of a family.

ghost use Rattle.std.specs.Prelude.{◌≤◌, IfOk, OnOk, length};
ghost use Rattle.certificate.specs.Claims.{IsClaim};
ghost use Rattle.certificate.specs.Valid.{MeetsConditions};
ghost use Rattle.family_graph.specs.Graphs.{AreWays, AreRooted};
ghost use Rattle.family_graph.specs.Chains.{IsDeepest, BeginsAtRoot};
ghost use Rattle.family_edges.specs.Tasks.{task_of};

use crate::building::graph_of;
use crate::entering::Entering;
use avr_model::listed::Listed;
use certificate::Certificate;
use family_edges::{Filled, Task};
use instance_graph::laws::ranks_rule_out_cycles;
use instance_graph::{Link, chain, compose_acyclic};
use std::alloc::AllocError;

/// The deepest chain of a family.
#[derive(Drop)]
pub struct Deepest {
    /// The least need of the root, at most the bound.
    pub need: u32,
    /// The links from the root on.
    pub links: Listed<Link>,
}

/// The deepest chain of nodes that meet the conditions on a certificate and have these entries, with the least needs and the root's need,
/// which is at most the bound.
pub fn deepest_chain(
    task: &Task<'_>,
    certificate: &Certificate,
    nodes: &Filled,
    ways: &Listed<Listed<Entering>>,
) -> Result<Deepest, AllocError>
    requires claim { IsClaim certificate.now }
    requires few { length nodes.now ≤ 65536 }
    requires meets { MeetsConditions (task_of task.now) certificate.now nodes.now }
    requires ways { AreWays (task_of task.now) nodes.now ways.now }
    requires rooted { AreRooted (task_of task.now) nodes.now }
    ensures deepest { IfOk result (λ d. IsDeepest (task_of task.now) nodes.now d.need d.links) }
    ensures bounded { IfOk result (λ d. d.need ≤ certificate.now.bound) }
    ensures root { OnOk result (BeginsAtRoot (task_of task.now) nodes.now) }
{
    ranks_rule_out_cycles();
    let graph = graph_of(task, nodes, ways)?;
    let back = task.flash.device().back();
    let composed = compose_acyclic(task.alloc, &graph, back)?;
    let links = chain(task.alloc, &graph, &composed, back)?;
    Ok(Deepest {
        need: composed.need(0),
        links: Listed::new(links),
    })
}
