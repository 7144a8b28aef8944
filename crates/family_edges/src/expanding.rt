//! Expansion: the state of each node, computed once, in order.

ghost use Rattle.std.specs.Prelude.{◌≡◌, ◌<◌, length, Some, IfOk, OnOk};
ghost use Rattle.std.specs.List.{find};
ghost use Rattle.std.specs.Option.{option_copied};
ghost use Rattle.avr_model.specs.Assumptions.{has_pairs};
ghost use Rattle.avr_model.specs.Devices.{device_of};
ghost use Rattle.edge_rules.specs.Expansion.{AreSeeds};
ghost use Rattle.node_keys.specs.Order.{same_node};
ghost use Rattle.edge_laws.specs.Carrying.{first_at, worked};
ghost use Rattle.edge_rules.specs.Seeds.{form_of};
ghost use Rattle.edge_laws.specs.Expansions.{AreSeedsAscending};
ghost use Rattle.family_edges.specs.Expanding.{IsExpanded, AreNumbered, ComesFromBelow, AreKept};
ghost use Rattle.family_edges.specs.Next.{local_of, same_in};
ghost use Rattle.family_edges.specs.Tasks.{task_of};
ghost use Rattle.family_edges.specs.Clauses.{IsNodeOf};

use crate::filled::{Expanded, Filled};
use crate::task::Task;
use abs_state::AbsState;
use abs_step::local;
use edge_rules::{Seed, Seeded};
use local_rules::{Node, NodeFault};
use node_keys::NodeKey;
use std::alloc::{AllocError, Global};

// The successors of one node, in its instance; of no node at first.
#[derive(Drop)]
struct Kept {
    from: Option<u32>,
    nodes: Vec<Node>,
}

// The first of these nodes with this key.
fn first_of<'a>(nodes: &'a [Node], key: &NodeKey) -> Option<&'a Node>
    ensures { option_copied result ≡ find (λ n. same_node n.key key.now) nodes.now }
{
    nodes.iter().find(|node| node.key == *key)
}

// The state of the first of these nodes with this key.
fn state_in(alloc: Global, nodes: &[Node], key: &NodeKey) -> Result<Option<AbsState>, AllocError>
    ensures { IfOk result (λ found. found ≡ first_at key.now nodes.now) }
{
    match first_of(nodes, key) {
        Some(node) => Ok(Some(node.state.copy(alloc)?)),
        None => Ok(None),
    }
}

// The successors of a node in its instance; none if it has a fault.
fn successors(task: &Task<'_>, node: &Node) -> Result<Vec<Node>, AllocError>
    requires { IsNodeOf (task_of task.now) node.now }
    ensures { IfOk result (λ nodes. nodes.items ≡ same_in (local_of (task_of task.now) node.now)) }
{
    match local(
        task.alloc,
        task.flash,
        task.assumptions,
        &node.key,
        &node.state,
    ) {
        Ok(leads) => Ok(leads.same.into_vec()),
        Err(NodeFault::Memory) => Err(AllocError),
        Err(_) => Ok(Vec::new(task.alloc)),
    }
}

// Keeps the successors of the node of this number, unless they are kept.
fn keep(task: &Task<'_>, done: &[Node], kept: &mut Kept, from: u32) -> Result<(), AllocError>
    requires nodes { AreNumbered (device_of task.now.flash.now) (has_pairs task.now.assumptions.now) done.now }
    requires below { from < length done.now }
    requires kept { AreKept (task_of task.now) done.now kept.old.from kept.old.nodes.items }
    ensures nodes { OnOk result (AreKept (task_of task.now) done.now (Some from) kept.new.nodes.items) }
    ensures from { OnOk result (kept.new.from ≡ Some from) }
{
    if kept.from != Some(from) {
        let nodes = successors(task, &done[from as usize])?;
        *kept = Kept {
            from: Some(from),
            nodes,
        };
    }
    Ok(())
}

// The state of one node, after those before it.
fn work(
    task: &Task<'_>,
    done: &[Node],
    kept: &mut Kept,
    key: &NodeKey,
    seed: Seed<'_>,
) -> Result<Option<AbsState>, AllocError>
    requires nodes { AreNumbered (device_of task.now.flash.now) (has_pairs task.now.assumptions.now) done.now }
    requires below { ComesFromBelow (form_of seed) (length done.now) }
    requires kept { AreKept (task_of task.now) done.now kept.old.from kept.old.nodes.items }
    ensures state { IfOk result (λ found. found ≡ worked (task_of task.now) done.now key.now (form_of seed.entry)) }
    ensures kept { OnOk result (AreKept (task_of task.now) done.now kept.new.from kept.new.nodes.items) }
{
    match seed {
        Seed::State(state) => Ok(Some(state.copy(task.alloc)?)),
        Seed::From(from) => {
            keep(task, done, kept, from)?;
            state_in(task.alloc, &kept.nodes, key)
        }
    }
}

/// The expansion of each node, or the first node that has none. The local part of a node is computed once for each run of nodes that come
/// from it.
pub fn expand<S: Seeded>(task: &Task<'_>, nodes: &S) -> Result<Expanded, AllocError>
    requires seeds { AreSeeds (device_of task.now.flash.now) (has_pairs task.now.assumptions.now) (S.nodes nodes.now) }
    requires ascending { AreSeedsAscending (S.nodes nodes.now) }
    ensures { IfOk result (λ answer. IsExpanded (task_of task.now) (S.nodes nodes.now) answer) }
{
    let mut done = Vec::new(task.alloc);
    let mut kept = Kept {
        from: None,
        nodes: Vec::new(task.alloc),
    };
    for at in 0..nodes.count() {
        let key = *nodes.key(at);
        match work(task, &done, &mut kept, &key, nodes.seed(at))? {
            Some(state) => done.push(Node { key, state })?,
            None => return Ok(Expanded::Missing(at as u32)),
        }
    }
    Ok(Expanded::Whole(Filled::new(done)))
}
