//! The edges of visited nodes, and their targets.

ghost use Rattle.std.specs.Prelude.{ℕ, ◌<◌, map, OnOk};
ghost use Rattle.abs_state.specs.Values.{value_at};
ghost use Rattle.abs_state.specs.Formed.{NamesRegister};
ghost use Rattle.avr_model.specs.State.{REGISTERS};
ghost use Rattle.local_rules.specs.declared.local.Node as node_type;
ghost use Rattle.edge_rules.specs.Edges.{target};
ghost use Rattle.family_edges.specs.Clauses.{Grows};
ghost use Rattle.family_edges.specs.Callers.{leaver_of};
ghost use Rattle.round_steps.specs.Targets.{noted_leavers, onward_at, all_interprocedural, edges_of, all_targets, returned_to, family_onwards, family_targets};
ghost use Rattle.round_steps.specs.Gathers.{IsOwnState, AreOwn, AreOwnNodes, IsTargetGathered, GathersMore, FindsBeyond};

use crate::looking::Look;
use crate::noting::Notes;
use abs_state::AbsState;
use avr_model::listed::Listed;
use family_edges::ways::Way;
use family_edges::{
    Caller, Edge, Leaver, Leavers, Start, add_interprocedural, add_moves, add_return,
};
use local_rules::{Exit, Node};
use node_keys::InstKey;
use round_table::{Crossing, GatheredStates, Table};
use std::alloc::{AllocError, Global};

// A family of nodes, and its notes.
#[derive(Clone, Copy)]
struct NotedFamily<'a> {
    alloc: Global,
    table: &'a Table,
    notes: &'a Notes,
}

// ---- from the nodes that leave what a node enters

// Adds the edge back to a caller from one of them, if the family has it.
fn add_leaver(
    edges: &mut Listed<Edge>,
    family: &NotedFamily<'_>,
    caller: &Caller<'_>,
    leaver: &Crossing,
) -> Result<(), AllocError>
    requires { AreOwn family.now.table.now }
    ensures { Grows result edges.old edges.new (returned_to family.now.table.now caller.now leaver.now) }
{
    let Some(state) = family.table.get(&leaver.node) else {
        return Ok(());
    };
    let exit = leaver.exit;
    add_return(family.alloc, edges, caller, &Leaver { exit, state })
}

impl Leavers for NotedFamily<'_> {
    ghost leavers = { λ s. noted_leavers s.table.now s.notes.now.leavers };

    ghost can_return = { λ s. AreOwn s.table.now };

    fn add_returns(&self, edges: &mut Listed<Edge>, caller: &Caller<'_>) -> Result<(), AllocError> {
        let Some(list) = self.notes.leavers.at(&caller.way.inst) else {
            return Ok(());
        };
        for at in 0..list.len() {
            add_leaver(edges, self, caller, &list[at])?;
        }
        Ok(())
    }
}

// ---- to the nodes that enter what a node leaves

// Adds the edge back to one of them, if the family has it.
fn add_onward(
    edges: &mut Listed<Edge>,
    family: &NotedFamily<'_>,
    inst: &InstKey,
    leaver: &Leaver<'_>,
    entering: &Crossing,
) -> Result<(), AllocError>
    requires { (r : ℕ) → r < REGISTERS → NamesRegister (value_at leaver.now.state.now.registers r).tag }
    ensures { Grows result edges.old edges.new (onward_at family.now.table.now inst.now (leaver_of leaver.now) entering.now) }
{
    let key = &entering.node;
    let Some(state) = family.table.get(key) else {
        return Ok(());
    };
    let way = Way {
        kind: entering.kind,
        inst: *inst,
        back: entering.back,
    };
    add_return(family.alloc, edges, &Caller { key, state, way }, leaver)
}

// Adds the edges back to all of them, if the node has an exit.
fn add_onwards(
    edges: &mut Listed<Edge>,
    family: &NotedFamily<'_>,
    inst: &InstKey,
    state: &AbsState,
    exit: Option<Exit>,
) -> Result<(), AllocError>
    requires { (r : ℕ) → r < REGISTERS → NamesRegister (value_at state.now.registers r).tag }
    ensures { Grows result edges.old edges.new (family_onwards family.now inst.now state.now exit) }
{
    let Some(exit) = exit else {
        return Ok(());
    };
    let Some(list) = family.notes.callers.at(inst) else {
        return Ok(());
    };
    let leaver = Leaver { exit, state };
    for at in 0..list.len() {
        add_onward(edges, family, inst, &leaver, &list[at])?;
    }
    Ok(())
}

// ---- of nodes

// Adds the edges into other instances, those back from them, and those back from the node's own.
fn add_all_interprocedural(
    edges: &mut Listed<Edge>,
    family: &NotedFamily<'_>,
    x: &Look,
    state: &AbsState,
) -> Result<(), AllocError>
    requires own { AreOwn family.now.table.now }
    requires named { (r : ℕ) → r < REGISTERS → NamesRegister (value_at state.now.registers r).tag }
    ensures { Grows result edges.old edges.new (all_interprocedural family.now.table.now family.now.notes.now x.now state.now) }
{
    let start = Start { key: &x.key, state };
    add_interprocedural(family.alloc, edges, &start, &x.ways, family)?;
    add_onwards(edges, family, &x.key.inst, state, x.part.exit)
}

// Adds all edges of a visited node. `drop` releases the look: a call is one step of the proof, whatever it owns.
fn add_edges(edges: &mut Listed<Edge>, family: &NotedFamily<'_>, x: Look) -> Result<(), AllocError>
    requires { AreOwn family.now.table.now }
    ensures { Grows result edges.old edges.new (edges_of family.now.table.now family.now.notes.now x) }
{
    let Some(state) = family.table.get(&x.key) else {
        drop(x);
        return Ok(());
    };
    match add_all_interprocedural(edges, family, &x, state) {
        Ok(()) => add_moves(edges, x.part.same.into_vec()),
        Err(error) => {
            drop(x);
            Err(error)
        }
    }
}

// Joins a node into the gathered one of its key, unless it lands in the family.
fn gather_one(next: &mut GatheredStates, table: &Table, node: Node) -> Result<(), AllocError>
    requires { IsOwnState node.key node.state }
    ensures { OnOk result (IsTargetGathered table.now next.old node next.new) }
{
    if table.covers(&node) {
        drop(node);
        return Ok(());
    }
    next.raise(node)
}

// Gathers the targets of edges.
fn gather(next: &mut GatheredStates, table: &Table, edges: Vec<Edge>) -> Result<(), AllocError>
    requires { AreOwnNodes (map target edges.items) }
    ensures { GathersMore result table.now next.old (map target edges.items) next.new }
{
    for edge in edges {
        let node = Node {
            key: edge.to,
            state: edge.state,
        };
        gather_one(next, table, node)?;
    }
    Ok(())
}

// Gathers the targets of one node.
fn gather_targets(
    next: &mut GatheredStates,
    family: &NotedFamily<'_>,
    x: Look,
) -> Result<(), AllocError>
    requires formed { AreOwn family.now.table.now }
    requires nodes { AreOwnNodes (family_targets family.now x) }
    ensures { GathersMore result family.now.table.now next.old (family_targets family.now x) next.new }
{
    let mut edges = Listed::empty(family.alloc);
    match add_edges(&mut edges, family, x) {
        Ok(()) => gather(next, family.table, edges.into_vec()),
        Err(error) => {
            drop(edges);
            Err(error)
        }
    }
}

/// The targets of these nodes' edges: their own, returns to them by nodes noted as leaving what they enter, and returns by them to nodes
/// noted as entering their instances. One state for each key, ascending by key; none lands in the family.
pub fn targets(
    alloc: Global,
    table: &Table,
    notes: &Notes,
    looks: Vec<Look>,
) -> Result<Vec<Node>, AllocError>
    requires formed { AreOwn table.now }
    requires nodes { AreOwnNodes (all_targets table.now notes.now looks.items) }
    ensures { FindsBeyond result table.now (all_targets table.now notes.now looks.items) }
{
    let family = NotedFamily {
        alloc,
        table,
        notes,
    };
    let mut next = GatheredStates::new(alloc);
    for x in looks {
        gather_targets(&mut next, &family, x)?;
    }
    next.into_sorted(alloc)
}
