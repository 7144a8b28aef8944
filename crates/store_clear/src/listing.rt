//! The clear nodes of a certificate.

ghost use Rattle.std.specs.Prelude.{◌≡◌, ◌≤◌, IfOk};
ghost use Rattle.avr_model.specs.Devices.{device_of, size_of};
ghost use Rattle.family_edges.specs.Landings.{AreLandings};
ghost use Rattle.store_clear.specs.Conditions.{is_discharged, AreConditions, AreConditionsLeft};
ghost use Rattle.family_edges.specs.Tasks.{task_of};

use crate::discharging::discharge;
use crate::need::condition_by;
use crate::spreading::frames_of;
use certificate::Certificate;
use clear_laws::slots::Condition;
use family_edges::{Filled, Task, WorkedOut};
use std::alloc::AllocError;

// Nodes with the conditions that remain; a node without one is clear.
#[derive(Clone, Copy)]
pub(crate) struct ListedNodes<'a> {
    // The expanded nodes.
    pub nodes: &'a Filled,
    // The condition of each node, by number.
    pub conditions: &'a [Condition],
}

// Whether a node with this condition left is clear.
pub(crate) fn is_discharged(conditions: Condition) -> bool
    ensures { result ≡ is_discharged conditions }
{
    match conditions {
        Condition::Always => true,
        _ => false,
    }
}

// The condition of each node for being clear, by number, if the stack takes at most this many bytes.
fn conditions_of(task: &Task<'_>, bound: u16, nodes: &Filled) -> Result<Vec<Condition>, AllocError>
    requires { bound ≤ size_of (device_of task.now.flash.now) }
    ensures { IfOk result (λ conditions. AreConditions (task_of task.now) bound nodes.now conditions.items) }
{
    let mut conditions = Vec::new(task.alloc);
    for at in 0..nodes.count() {
        let (key, state) = (nodes.key(at), nodes.state(at));
        conditions.push(condition_by(task, bound, key, state))?;
    }
    Ok(conditions)
}

// The conditions of a certificate's nodes that remain.
pub(crate) fn listed(
    task: &Task<'_>,
    certificate: &Certificate,
    family: &WorkedOut,
) -> Result<Vec<Condition>, AllocError>
    requires small { certificate.now.bound ≤ size_of (device_of task.now.flash.now) }
    requires landings { AreLandings (task_of task.now) family.now.nodes family.now.landings }
    ensures { IfOk result (λ conditions. AreConditionsLeft (task_of task.now) certificate.now family.now.nodes conditions.items) }
{
    let _count = family.nodes.count();
    let mut conditions = conditions_of(task, certificate.bound(), &family.nodes)?;
    let frames = frames_of(task, family)?;
    let discharged = discharge(task.alloc, &frames, conditions.as_mut_slice());
    drop(frames);
    discharged?;
    Ok(conditions)
}
