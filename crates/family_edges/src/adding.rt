//! Edges of a node, added to a list. The nodes that return to it come from a family or from the notes of a round.

ghost use Rattle.std.specs.Prelude.{ℕ, ◌<◌, map};
ghost use Rattle.abs_state.specs.Values.{value_at};
ghost use Rattle.abs_state.specs.Formed.{NamesRegister};
ghost use Rattle.avr_model.specs.State.{REGISTERS};
ghost use Rattle.family_edges.specs.Next.{local_edge, entry_edge, return_by, all_returns, interprocedural};
ghost use Rattle.family_edges.specs.Clauses.{Grows};
ghost use Rattle.family_edges.specs.Callers.{caller_node, leaver_of, start_node};

use crate::callers::{Caller, Leaver, returned};
use crate::ways::Way;
use abs_state::AbsState;
use avr_model::listed::Listed;
use edge_rules::Edge;
use local_rules::Node;
use node_keys::{EdgeKind, NodeKey};
use std::alloc::{AllocError, Global};

/// A family whose nodes leave instances.
pub trait Leavers {
    ghost use Rattle.std.specs.Prelude.{List};
    ghost use Rattle.node_keys.specs.declared.keys.InstKey.{InstKey};
    ghost use Rattle.family_edges.specs.Next.{Leaver, returns_in};
    ghost use Rattle.family_edges.specs.Clauses.{Grows};
    ghost use Rattle.family_edges.specs.Callers.{caller_node};

    /// The nodes that leave an instance.
    ghost leavers: { Self → InstKey → List Leaver };

    /// What `add_returns` requires of the family.
    ghost can_return: { Self → Type 0 };

    /// Adds the edges back to a caller from the nodes that leave the instance it entered.
    fn add_returns(&self, edges: &mut Listed<Edge>, caller: &Caller<'_>) -> Result<(), AllocError>
        requires { can_return self.now }
        ensures { Grows result edges.old edges.new (returns_in (leavers self.now) (caller_node caller.now) caller.now.way) };
}

/// A node that edges leave.
#[derive(Clone, Copy)]
pub struct Start<'a> {
    /// Its key.
    pub key: &'a NodeKey,
    /// Its state.
    pub state: &'a AbsState,
}

/// Adds the edges in the node's own frame.
pub fn add_moves(edges: &mut Listed<Edge>, nodes: Vec<Node>) -> Result<(), AllocError>
    ensures { Grows result edges.old edges.new (map local_edge nodes.items) }
{
    for node in nodes {
        edges.push(Edge {
            kind: EdgeKind::Local,
            to: node.key,
            state: node.state,
        })?;
    }
    Ok(())
}

// Adds the edges into other instances.
fn add_entries(
    alloc: Global,
    edges: &mut Listed<Edge>,
    state: &AbsState,
    ways: &[Way],
) -> Result<(), AllocError>
    ensures { Grows result edges.old edges.new (map (entry_edge state.now) ways.now) }
{
    for at in 0..ways.len() {
        let state = state.entered(alloc)?;
        edges.push(Edge {
            kind: ways[at].kind,
            to: NodeKey::entry(&ways[at].inst),
            state,
        })?;
    }
    Ok(())
}

/// Adds the edge back to a caller from a node that leaves the entered instance, if the states fit. It is a function of its own, so that
/// memory for the edge is cleared only if a node returns.
pub fn add_return(
    alloc: Global,
    edges: &mut Listed<Edge>,
    caller: &Caller<'_>,
    leaver: &Leaver<'_>,
) -> Result<(), AllocError>
    requires { (r : ℕ) → r < REGISTERS → NamesRegister (value_at leaver.now.state.now.registers r).tag }
    ensures { Grows result edges.old edges.new (return_by (caller_node caller.now) caller.now.way (leaver_of leaver.now)) }
{
    let Some(node) = returned(alloc, caller, &leaver.exit, leaver.state)? else {
        return Ok(());
    };
    edges.push(Edge {
        kind: EdgeKind::Return,
        to: node.key,
        state: node.state,
    })?;
    Ok(())
}

// Adds the edges back from all entered instances.
fn add_all_returns<S: Leavers>(
    edges: &mut Listed<Edge>,
    start: &Start<'_>,
    ways: &[Way],
    source: &S,
) -> Result<(), AllocError>
    requires { S.can_return source.now }
    ensures { Grows result edges.old edges.new (all_returns (S.leavers source.now) (start_node start.now) ways.now) }
{
    for at in 0..ways.len() {
        let caller = Caller {
            key: start.key,
            state: start.state,
            way: ways[at],
        };
        source.add_returns(edges, &caller)?;
    }
    Ok(())
}

/// Adds the edges into other instances, and those back from them.
pub fn add_interprocedural<S: Leavers>(
    alloc: Global,
    edges: &mut Listed<Edge>,
    start: &Start<'_>,
    ways: &[Way],
    source: &S,
) -> Result<(), AllocError>
    requires { S.can_return source.now }
    ensures { Grows result edges.old edges.new (interprocedural (S.leavers source.now) (start_node start.now) ways.now) }
{
    add_entries(alloc, edges, start.state, ways)?;
    add_all_returns(edges, start, ways, source)
}
