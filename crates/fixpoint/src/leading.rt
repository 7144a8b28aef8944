//! The edges that lead to each node.

ghost use Rattle.std.specs.Prelude.{◌≡◌, ◌<◌, ◌≤◌, fold, length, IfOk, Contains};
ghost use Rattle.family_edges.specs.declared.landing.Landing as landing_type;
ghost use Rattle.family_edges.specs.Landings.{AreLandings};
ghost use Rattle.fixpoint.specs.Leads.{led, noted, AreLeads};
ghost use Rattle.family_edges.specs.Tasks.{task_of};

use family_edges::{Landing, Task, WorkedOut};
use node_keys::EdgeKind;
use std::alloc::AllocError;

// The edges that lead to a node.
#[derive(Clone, Copy)]
pub(crate) enum Lead {
    // None.
    Nothing,
    // Only a local one, from the node of this number.
    Only(u32),
    // Several, or one that isn't local.
    More,
}

// One more edge, from the node of this number. The same one may come again.
fn led(lead: Lead, at: u32, kind: EdgeKind) -> Lead
    ensures { result ≡ led lead at kind }
{
    match kind {
        EdgeKind::Local => match lead {
            Lead::Nothing => Lead::Only(at),
            Lead::Only(from) => { if from == at { lead } else { Lead::More } }
            Lead::More => lead,
        },
        EdgeKind::Call | EdgeKind::Interrupt(_, _) | EdgeKind::Return => Lead::More,
    }
}

// Adds the landings of the node of this number.
fn note_all(at: u32, landings: &[Landing], leads: &mut [Lead])
    requires { (l : landing_type.Landing) → Contains landings.now l → l.at < length leads.old }
    ensures { leads.new ≡ fold (noted at) leads.old landings.now }
{
    for landing in landings {
        let to = landing.at as usize;
        leads[to] = led(leads[to], at, landing.kind);
    }
}

// The edges that lead to each node of a family, by its landings.
pub(crate) fn leads(task: &Task<'_>, family: &WorkedOut) -> Result<Vec<Lead>, AllocError>
    requires few { length family.now.nodes ≤ 65536 }
    requires landings { AreLandings (task_of task.now) family.now.nodes family.now.landings }
    ensures { IfOk result (λ l. AreLeads (task_of task.now) family.now.nodes (length family.now.nodes) l.items) }
{
    let landings = family.landings.as_slice();
    let mut leads = vec![in task.alloc; Lead::Nothing; family.nodes.count()]?;
    for at in 0..family.nodes.count() {
        note_all(at as u32, landings[at].as_slice(), leads.as_mut_slice());
    }
    Ok(leads)
}
