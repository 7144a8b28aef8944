//! The certificate, part by part.

ghost use Rattle.std.specs.Prelude.{ℕ, ◌≡◌, length, true, IfOk};
ghost use Rattle.std.specs.List.{All};
ghost use Rattle.avr_model.specs.Devices.{device_of};
ghost use Rattle.vector_table.specs.Entries.{fits_device};
ghost use Rattle.family_edges.specs.Landings.{AreLandings};
ghost use Rattle.round_rules.specs.Refusals.{IsSolved};
ghost use Rattle.round_rules.specs.Solutions.{IsSolution};
ghost use Rattle.round_solutions.specs.Parts.{AreInsts};
ghost use Rattle.fixpoint.specs.Insts.{AreSolvedNodes, AreInstsOf};
ghost use Rattle.family_edges.specs.Tasks.{task_of};

use crate::forming::forms;
use certificate::{Certificate, Inst};
use family_edges::{Filled, Task, WorkedOut};
use family_graph::{entered_by, graph_of};
use instance_graph::{Composed, Graph, compose_acyclic};
use round_solutions::laws::solved_families_are_shown;
use round_table::Table;
use std::alloc::{AllocError, Global};
use vector_table::Assumptions;

// The instances of a graph with ranks and needs.
fn instances(alloc: Global, graph: &Graph, composed: &Composed) -> Result<Vec<Inst>, AllocError>
    requires ranks { length composed.now.ranks ≡ length graph.now.instances }
    requires needs { length composed.now.needs ≡ length graph.now.instances }
    ensures { IfOk result (λ insts. AreInsts graph.now.instances composed.now.ranks composed.now.needs insts.items) }
{
    let graph = graph.instances.as_slice();
    let ranks = composed.ranks.as_slice();
    let needs = composed.needs.as_slice();
    let mut insts = Vec::new(alloc);
    for i in 0..graph.len() {
        insts.push(Inst {
            key: graph[i].key,
            rank: ranks[i],
            need: needs[i],
        })?;
    }
    Ok(insts)
}

// The assumptions, and the instances of the family at which the rounds end.
fn heading(task: &Task<'_>, family: &WorkedOut) -> Result<(Assumptions, Vec<Inst>), AllocError>
    requires solved { AreSolvedNodes (task_of task.now) family.now.nodes }
    requires landings { AreLandings (task_of task.now) family.now.nodes family.now.landings }
    ensures listed { IfOk result (λ head. head.0 ≡ task.now.assumptions.now) }
    ensures insts { IfOk result (λ head. AreInstsOf (task_of task.now) family.now.nodes head.1.items) }
{
    solved_families_are_shown();
    let ways = entered_by(task, family)?;
    let graph = graph_of(task, &family.nodes, &ways)?;
    let composed = compose_acyclic(task.alloc, &graph, task.flash.device().back())?;
    let insts = instances(task.alloc, &graph, &composed)?;
    let listed = task.assumptions.copy()?;
    Ok((listed, insts))
}

// The certificate of the family at which the rounds end, without a schedule. Each local part is computed twice.
pub(crate) fn certificate_of(task: &Task<'_>, table: Table) -> Result<Certificate, AllocError>
    requires solved { (n : ℕ) × IsSolved (task_of task.now) n table }
    requires of_device { All (λ e. fits_device (device_of task.now.flash.now) e ≡ true) task.now.assumptions.now }
    ensures { IfOk result (λ c. IsSolution (task_of task.now) table c) }
{
    solved_families_are_shown();
    // These entries are those of a valid list of assumptions.
    let _entries = task.assumptions.entries();
    let family = WorkedOut::of(task, Filled::new(table.into_sorted(task.alloc)?))?;
    match heading(task, &family) {
        Ok((listed, insts)) => {
            let seeds = forms(task, family)?;
            let bound = insts[0].need as u16;
            Ok(Certificate::build(task.flash.device(), bound, listed, insts, seeds))
        }
        Err(error) => {
            drop(family);
            Err(error)
        }
    }
}
