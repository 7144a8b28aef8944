//! The edges from a node.

ghost use Rattle.std.specs.Prelude.{◌≡◌, ◌≢◌, ◌↔◌, ◌<◌, length, slice_get, Some, Err, IfOk, OnOk};
ghost use Rattle.text_base.specs.Answers.{Answers};
ghost use Rattle.local_rules.specs.declared.local.NodeFault.TheVariants.{Memory};
ghost use Rattle.local_rules.specs.declared.local.NodeFault as fault_type;
ghost use Rattle.local_rules.specs.declared.local.Node.{Node};
ghost use Rattle.edge_rules.specs.Edges.{IsFaultless, AreEdges};
ghost use Rattle.family_edges.specs.Shown.{AreOfSomeDevice};
ghost use Rattle.family_edges.specs.Exits.{AreExits, AreExitsKnown};
ghost use Rattle.family_edges.specs.Next.{next_of, local_of, edges_by};
ghost use Rattle.family_edges.specs.Tasks.{task_of};
ghost use Rattle.family_edges.specs.Clauses.{AtNumber};
ghost use Rattle.family_edges.specs.Callers.{start_node};

use crate::adding::{Start, add_interprocedural, add_moves};
use crate::filled::Filled;
use crate::known::Known;
use crate::task::Task;
use crate::ways::ways;
use abs_step::local;
use avr_model::listed::Listed;
use edge_rules::Edge;
use local_rules::{Exit, Local, NodeFault};
use std::alloc::AllocError;

// All edges of a node with this local part.
fn edges_of(start: &Start<'_>, found: Local, known: &Known<'_>) -> Result<Listed<Edge>, AllocError>
    requires shown { AreOfSomeDevice known.now.nodes.now }
    requires given { AreExitsKnown (task_of known.now.task.now) known.now.nodes.now known.now.exits.now }
    ensures { IfOk result (λ edges. edges ≡ edges_by (task_of known.now.task.now) known.now.nodes.now (start_node start.now) found) }
{
    let alloc = known.task.alloc;
    let all = ways(known.task, start.key, found.calls.as_slice())?;
    let mut edges = Listed::empty(alloc);
    add_moves(&mut edges, found.same.into_vec())?;
    add_interprocedural(alloc, &mut edges, start, &all, known)?;
    Ok(edges)
}

// The edges in order of discovery. The exits of the first nodes may be given.
fn listed(
    task: &Task<'_>,
    nodes: &Filled,
    at: usize,
    known: &[Option<Exit>],
) -> Result<Listed<Edge>, NodeFault>
    requires place { at < length nodes.now }
    requires given { AreExitsKnown (task_of task.now) nodes.now known.now }
    ensures { AtNumber nodes.now at (λ n. Answers (λ e. e) Memory result (next_of (task_of task.now) nodes.now n)) }
{
    let count = nodes.count();
    prove!(at < count);
    let key = nodes.key(at);
    let state = nodes.state(at);
    let found = local(task.alloc, task.flash, task.assumptions, key, state)?;
    let start = Start { key, state };
    let known = Known {
        task,
        nodes,
        exits: known,
    };
    Ok(edges_of(&start, found, &known)?)
}

/// The edges from the node of this number, in no particular order, or the node's fault that counts. `Memory` is no fault of the node. The
/// local part of each node that may return to it is computed again.
pub fn next(task: &Task<'_>, nodes: &Filled, at: usize) -> Result<Listed<Edge>, NodeFault>
    requires { at < length nodes.now }
    ensures edges { AtNumber nodes.now at (λ n. IfOk result (λ edges. AreEdges (task_of task.now) nodes.now n edges)) }
    ensures fault { (n : Node) (f : fault_type.NodeFault) → slice_get nodes.now at ≡ Some n → result ≢ Err Memory → (result ≡ Err f) ↔ (local_of (task_of task.now) n ≡ Err f) }
    ensures faultless { (n : Node) → slice_get nodes.now at ≡ Some n → OnOk result (IsFaultless (task_of task.now) n) }
{
    listed(task, nodes, at, &[])
}

/// The edges from the node of this number, in no particular order. No node may have a fault, and `exits` are those of the nodes. Only the
/// local part of this node is computed.
pub fn next_with(
    task: &Task<'_>,
    nodes: &Filled,
    at: usize,
    exits: &Listed<Option<Exit>>,
) -> Result<Listed<Edge>, AllocError>
    requires place { at < length nodes.now }
    requires taken { AreExits (task_of task.now) nodes.now exits.now }
    ensures { AtNumber nodes.now at (λ n. IfOk result (λ edges. AreEdges (task_of task.now) nodes.now n edges)) }
{
    match listed(task, nodes, at, exits.as_slice()) {
        Ok(edges) => Ok(edges),
        Err(_) => Err(AllocError),
    }
}
