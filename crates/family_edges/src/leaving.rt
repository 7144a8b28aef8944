//! The exits of a family's nodes, each computed once.

ghost use Rattle.std.specs.Prelude.{◌≡◌, ◌<◌, length, IfOk};
ghost use Rattle.text_base.specs.Answers.{Answers};
ghost use Rattle.local_rules.specs.declared.local.NodeFault.TheVariants.{Memory};
ghost use Rattle.edge_rules.specs.Families.{AreFaultless};
ghost use Rattle.family_edges.specs.Shown.{AreOfSomeDevice};
ghost use Rattle.family_edges.specs.Next.{local_of};
ghost use Rattle.family_edges.specs.Exits.{exit_or, AreExits, GivesExits};
ghost use Rattle.family_edges.specs.Tasks.{task_of};
ghost use Rattle.family_edges.specs.Clauses.{AtNumber};

use crate::exit_list::Leaving;
use crate::filled::Filled;
use crate::task::Task;
use abs_step::local;
use avr_model::listed::Listed;
use local_rules::{Exit, NodeFault};
use std::alloc::AllocError;

// The exit of the node of this number, or its fault.
pub(crate) fn exit_at(task: &Task<'_>, nodes: &Filled, at: usize) -> Result<Option<Exit>, NodeFault>
    requires place { at < length nodes.now }
    requires shown { AreOfSomeDevice nodes.now }
    ensures { AtNumber nodes.now at (λ n. Answers (λ x. x) Memory result (exit_or (local_of (task_of task.now) n))) }
{
    let key = nodes.key(at);
    let state = nodes.state(at);
    let found = local(task.alloc, task.flash, task.assumptions, key, state)?;
    Ok(found.exit)
}

/// The exits of all nodes if none has a fault, else the first fault. The local part of each node is computed once.
pub fn exits(task: &Task<'_>, nodes: &Filled) -> Result<Leaving, AllocError>
    ensures { IfOk result (λ answer. GivesExits (task_of task.now) nodes.now answer) }
{
    let mut items = Vec::new(task.alloc);
    for at in 0..nodes.count() {
        match exit_at(task, nodes, at) {
            Ok(exit) => items.push(exit)?,
            Err(NodeFault::Memory) => return Err(AllocError),
            Err(fault) => return Ok(Leaving::Fault(at, fault)),
        }
    }
    Ok(Leaving::All(Listed::new(items)))
}

/// The exits of all nodes, none of which may have a fault. The local part of each node is computed once.
pub fn all_exits(task: &Task<'_>, nodes: &Filled) -> Result<Listed<Option<Exit>>, AllocError>
    requires faultless { AreFaultless (task_of task.now) nodes.now }
    ensures { IfOk result (λ exits. AreExits (task_of task.now) nodes.now exits) }
{
    match exits(task, nodes)? {
        Leaving::All(exits) => Ok(exits),
        Leaving::Fault(_, _) => unreachable!(),
    }
}
