//! The graph of instances, instance by instance.

ghost use Rattle.std.specs.Prelude.{◌<◌, ◌≤◌, length, Some, IfOk, OnOk, Contains};
ghost use Rattle.std.specs.List.{flat_map};
ghost use Rattle.instance_graph.specs.Graph.{IsGraph};
ghost use Rattle.family_graph.specs.declared.entering.Entering as entering_type;
ghost use Rattle.family_graph.specs.Graphs.{HasInst, AreWays, IsPeopled, IsGraphOf};
ghost use Rattle.family_graph.specs.Numbers.{AreRecurs, AreRecursOf, GivesInst, entries_added, AddsNode};
ghost use Rattle.family_edges.specs.Tasks.{task_of};
ghost use Rattle.family_edges.specs.Clauses.{AtNumber, Grows};
ghost use Rattle.family_graph.specs.Numbered.{NumbersAll};

use crate::entering::Entering;
use crate::numbering::{Numbering, number_of, numbered};
use avr_model::listed::Listed;
use family_edges::{Filled, Task};
use instance_graph::{ClosedNode, Entered, Graph, GraphInst, GraphWay};
use node_keys::{InstKey, SpForm};
use std::alloc::AllocError;

// The closed nodes and edges of an instance found so far.
#[derive(Drop)]
struct Parts {
    offsets: Vec<ClosedNode>,
    entered: Vec<Entered>,
}

// A family whose instances are numbered.
#[derive(Clone, Copy)]
struct NumberedFamily<'a, 't> {
    task: &'a Task<'t>,
    nodes: &'a Filled,
    numbering: &'a Numbering,
}

// The edge of the graph for an entry by this closed node, unless the instance is cut.
fn add_entry(
    family: &NumberedFamily<'_, '_>,
    closed: ClosedNode,
    way: &Entering,
    entered: &mut Vec<Entered>,
) -> Result<(), AllocError>
    requires numbers { NumbersAll family.now.nodes.now family.now.numbering.now }
    requires has { HasInst family.now.nodes.now way.now.inst }
    ensures { Grows result entered.old.items entered.new.items (entries_added family.now closed way.now) }
{
    if way.inst.cut(family.task.assumptions).is_some() {
        return Ok(());
    }
    let into = number_of(family.nodes, family.numbering, &way.inst);
    entered.push(Entered {
        node: closed.node,
        offset: closed.offset,
        way: GraphWay::Enters(way.kind),
        into,
    })?;
    Ok(())
}

// The edges of the graph for the entries of this closed node.
fn add_entries(
    family: &NumberedFamily<'_, '_>,
    closed: ClosedNode,
    ways: &[Entering],
    entered: &mut Vec<Entered>,
) -> Result<(), AllocError>
    requires numbers { NumbersAll family.now.nodes.now family.now.numbering.now }
    requires has { (w : entering_type.Entering) → Contains ways.now w → HasInst family.now.nodes.now w.inst }
    ensures { Grows result entered.old.items entered.new.items (flat_map (entries_added family.now closed) ways.now) }
{
    for way in ways {
        add_entry(family, closed, way, entered)?;
    }
    Ok(())
}

// The recur edges of the root, one to each cut instance.
fn add_recurs(
    task: &Task<'_>,
    insts: &[InstKey],
    behind: u32,
    entered: &mut Vec<Entered>,
) -> Result<(), AllocError>
    requires { length insts.now ≤ 65536 }
    ensures { OnOk result (AreRecurs task.now.assumptions.now insts.now behind (length insts.now) entered.old.items entered.new.items) }
{
    for into in 0..insts.len() {
        if let Some(depth) = insts[into].cut(task.assumptions) {
            entered.push(Entered {
                node: behind,
                offset: depth,
                way: GraphWay::Recur,
                into: into as u32,
            })?;
        }
    }
    Ok(())
}

// The recur edges, if the instance is the root.
fn add_root_edges(
    task: &Task<'_>,
    insts: &[InstKey],
    behind: u32,
    inst: &InstKey,
    entered: &mut Vec<Entered>,
) -> Result<(), AllocError>
    requires { length insts.now ≤ 65536 }
    ensures { OnOk result (AreRecursOf task.now.assumptions.now insts.now behind inst.now entered.old.items entered.new.items) }
{
    if *inst == InstKey::root() {
        add_recurs(task, insts, behind, entered)?;
        return Ok(());
    }
    Ok(())
}

// The node of this number, if it is closed, with the edges for its entries.
fn add_node(
    family: &NumberedFamily<'_, '_>,
    at: usize,
    ways: &[Entering],
    parts: &mut Parts,
) -> Result<(), AllocError>
    requires inside { at < length family.now.nodes.now }
    requires few { length family.now.nodes.now ≤ 65536 }
    requires numbers { NumbersAll family.now.nodes.now family.now.numbering.now }
    requires has { (w : entering_type.Entering) → Contains ways.now w → HasInst family.now.nodes.now w.inst }
    ensures { AtNumber family.now.nodes.now at (λ n. OnOk result (AddsNode family.now at n ways.now parts.old parts.new)) }
{
    if let SpForm::Closed(offset) = family.nodes.key(at).sp {
        let closed = ClosedNode {
            node: at as u32,
            offset,
        };
        parts.offsets.push(closed)?;
        add_entries(family, closed, ways, &mut parts.entered)?;
    }
    Ok(())
}

// The instance of this number, with its closed nodes and edges, from the entries of the nodes.
fn instance(
    task: &Task<'_>,
    nodes: &Filled,
    ways: &[Listed<Entering>],
    numbering: &Numbering,
    i: usize,
) -> Result<GraphInst, AllocError>
    requires inside { i < length numbering.now.insts.items }
    requires few { length nodes.now ≤ 65536 }
    requires ways { AreWays (task_of task.now) nodes.now ways.now }
    requires numbers { NumbersAll nodes.now numbering.now }
    requires peopled { IsPeopled (task_of task.now) nodes.now }
    ensures { GivesInst result (task_of task.now) nodes.now numbering.now.insts.items i }
{
    let key = numbering.insts[i];
    let (low, high) = nodes.span(&key);
    let mut parts = Parts {
        offsets: Vec::new(task.alloc),
        entered: Vec::new(task.alloc),
    };
    let family = NumberedFamily {
        task,
        nodes,
        numbering,
    };
    for at in low..high {
        add_node(&family, at, ways[at].as_slice(), &mut parts)?;
    }
    let behind = nodes.count() as u32;
    add_root_edges(task, &numbering.insts, behind, &key, &mut parts.entered)?;
    Ok(GraphInst {
        key,
        offsets: Listed::new(parts.offsets),
        entered: Listed::new(parts.entered),
    })
}

/// The graph of a family of 1 to 65,536 nodes with these entries. Each instance that one of them enters has its first node.
pub fn graph_of(
    task: &Task<'_>,
    nodes: &Filled,
    ways: &Listed<Listed<Entering>>,
) -> Result<Graph, AllocError>
    requires some { 0 < length nodes.now }
    requires few { length nodes.now ≤ 65536 }
    requires ways { AreWays (task_of task.now) nodes.now ways.now }
    requires peopled { IsPeopled (task_of task.now) nodes.now }
    ensures graph { IfOk result (λ graph. IsGraph graph.instances) }
    ensures family { IfOk result (λ graph. IsGraphOf (task_of task.now) nodes.now graph.instances) }
{
    let _count = nodes.count();
    // These entries are those of a valid list of assumptions.
    let _entries = task.assumptions.entries();
    let numbering = numbered(task.alloc, nodes)?;
    let mut instances = Vec::new(task.alloc);
    for i in 0..numbering.insts.len() {
        let inst = instance(task, nodes, ways.as_slice(), &numbering, i)?;
        instances.push(inst)?;
    }
    Ok(Graph {
        instances: Listed::new(instances),
    })
}
