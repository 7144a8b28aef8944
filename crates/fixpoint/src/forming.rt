//! The nodes that are written with states, and those without.

ghost use Rattle.std.specs.Prelude.{◌≡◌, ◌≤◌, ◌<◌, length, IfOk};
ghost use Rattle.family_edges.specs.Landings.{AreLandings};
ghost use Rattle.round_solutions.specs.Parts.{AreForms};
ghost use Rattle.fixpoint.specs.Leads.{lead_at, form_by, forms_from};
ghost use Rattle.family_edges.specs.Tasks.{task_of};

use crate::leading::{Lead, leads};
use abs_state::AbsState;
use edge_rules::HeldState;
use family_edges::{NodeForm, Task, WorkedOut};
use local_rules::Node;
use node_keys::NodeKey;
use std::alloc::{AllocError, Global};

// The form of the node of this number, by the edges that lead to nodes.
fn form(alloc: Global, leads: &[Lead], at: usize, state: AbsState) -> Result<NodeForm, AllocError>
    requires { at < length leads.now }
    ensures { IfOk result (λ form. form ≡ form_by at (lead_at leads.now at) state) }
{
    if let Lead::Only(from) = leads[at] {
        if (from as usize) < at {
            return Ok(NodeForm::From(from));
        }
    }
    Ok(NodeForm::State(HeldState::new(alloc, state)?))
}

// The nodes with their forms, by the edges that lead to them.
fn formed(
    alloc: Global,
    nodes: Vec<Node>,
    leads: &[Lead],
) -> Result<Vec<(NodeKey, NodeForm)>, AllocError>
    requires { length leads.now ≡ length nodes.items }
    ensures { IfOk result (λ forms. forms.items ≡ forms_from 0 leads.now nodes.items) }
{
    let mut forms = Vec::with_capacity(alloc, nodes.len())?;
    for node in nodes {
        let at = forms.len();
        let form = form(alloc, leads, at, node.state)?;
        forms.push((node.key, form))?;
    }
    Ok(forms)
}

/// The nodes of a family, at most 65,536, with their forms: the number of an earlier node if the only edge to the node is local and comes
/// from there, else the state. No local part is computed.
pub fn forms(task: &Task<'_>, family: WorkedOut) -> Result<Vec<(NodeKey, NodeForm)>, AllocError>
    requires few { length family.nodes ≤ 65536 }
    requires landings { AreLandings (task_of task.now) family.nodes family.landings }
    ensures { IfOk result (λ forms. AreForms (task_of task.now) family.nodes forms.items) }
{
    match leads(task, &family) {
        Ok(leads) => formed(task.alloc, family.nodes.into_vec(), leads.as_slice()),
        Err(error) => {
            drop(family);
            Err(error)
        }
    }
}
