//! Worked graphs: ranks, needs, chains and named instances, found by hand.

ghost use Rattle.instance_graph.specs.Chain.{HaveClosedNodes};
ghost use Rattle.instance_graph.specs.Graph.{IsGraph};
ghost use Rattle.instance_graph.specs.Least.{IsLeast};

use avr_model::device::SIZE;
use avr_model::listed::Listed;
use instance_graph::{
    ClosedNode, ComposeFault, Composed, Entered, Graph, GraphInst, GraphWay, Link, chain, compose,
};
use node_keys::{EdgeKind, InstKey, Kind};
use row_tests::WorkedRow;
use std::alloc::{AllocError, Global};
use vector_table::Masks;

// The kind of an entry: none or the root, a call, or the interrupt of a vector from 2 on.
const NONE: u8 = 0;

const CALL: u8 = 1;

// A recur edge of the root.
const RECUR: u8 = 255;

// The bytes of a return address.
const BACK: u8 = 2;

// A node and an offset.
type At = (u32, u16);

// A node, an offset, the kind of the entry or `RECUR`, and the instance below.
type Edge = (u32, u16, u8, u32);

// The kind of its entry, its entry, its closed nodes and its edges.
type Inst = (u8, u32, &'static [At], &'static [Edge]);

// An instance, a node, the depth there, and the kind of the next entry.
type Step = (u32, u32, u16, u8);

// Ranks, needs and a chain.
struct Least(&'static [u32], &'static [u32], &'static [Step]);

// The expected result of `compose` and `chain`.
enum Wanted {
    Least(Least),
    // The named instance.
    Cycle(u32),
    // It is not composable.
    Shapeless,
    // It is composable, but an entered instance or the root has no closed node.
    Nodeless,
}

fn way(number: u8) -> GraphWay {
    match number {
        CALL => GraphWay::Enters(EdgeKind::Call),
        RECUR => GraphWay::Recur,
        _ => GraphWay::Enters(EdgeKind::Interrupt(number, false)),
    }
}

fn is_way(way: Option<GraphWay>, number: u8) -> bool {
    match way {
        None => number == NONE,
        Some(GraphWay::Recur) => number == RECUR,
        Some(GraphWay::Enters(EdgeKind::Interrupt(vector, _))) => number == vector,
        Some(GraphWay::Enters(_)) => number == CALL,
    }
}

// The instance with this entry and kind.
pub(crate) fn key(number: u8, entry: u32) -> InstKey {
    let kind = match number {
        NONE => Kind::Root,
        CALL => Kind::Call,
        _ => Kind::Vector(number),
    };
    InstKey {
        kind,
        entry,
        masks: Masks::none(),
        i: false,
    }
}

fn add_nodes(list: &mut Vec<ClosedNode>, rows: &[At]) -> Result<(), AllocError> {
    for &(node, offset) in rows {
        list.push(ClosedNode { node, offset })?;
    }
    Ok(())
}

fn add_edges(list: &mut Vec<Entered>, rows: &[Edge]) -> Result<(), AllocError> {
    for &(node, offset, by, into) in rows {
        let way = way(by);
        list.push(Entered {
            node,
            offset,
            way,
            into,
        })?;
    }
    Ok(())
}

fn add_inst(alloc: Global, list: &mut Vec<GraphInst>, row: &Inst) -> Result<(), AllocError> {
    let mut nodes = Vec::new(alloc);
    let mut edges = Vec::new(alloc);
    let added = add_nodes(&mut nodes, row.2);
    let entered = add_edges(&mut edges, row.3);
    let inst = GraphInst {
        key: key(row.0, row.1),
        offsets: Listed::new(nodes),
        entered: Listed::new(edges),
    };
    let pushed = list.push(inst).is_ok();
    if pushed && added.is_ok() && entered.is_ok() {
        Ok(())
    } else {
        Err(AllocError)
    }
}

fn add_all(alloc: Global, list: &mut Vec<GraphInst>, rows: &[Inst]) -> Result<(), AllocError> {
    for row in rows {
        add_inst(alloc, list, row)?;
    }
    Ok(())
}

fn graph(alloc: Global, rows: &[Inst]) -> Result<Graph, AllocError> {
    let mut list = Vec::new(alloc);
    let added = add_all(alloc, &mut list, rows);
    let instances = Listed::new(list);
    added.and(Ok(Graph { instances }))
}

fn is_link(link: &Link, step: Step) -> bool {
    let (inst, node, depth, by) = step;
    (link.inst, link.node, link.depth) == (inst, node, depth) && is_way(link.way, by)
}

fn are_links(links: &[Link], steps: &[Step]) -> bool {
    for (link, step) in links.iter().zip(steps) {
        if !is_link(link, *step) {
            return false;
        }
    }
    links.len() == steps.len()
}

fn has_chain(alloc: Global, graph: &Graph, composed: &Composed, wanted: &Least) -> bool
    requires graph { IsGraph graph.now.instances }
    requires least { IsLeast BACK graph.now.instances composed.now.ranks composed.now.needs }
    requires closed { HaveClosedNodes graph.now.instances }
{
    if composed.need(0) > u32::from(SIZE) {
        return false;
    }
    match chain(alloc, graph, composed, BACK) {
        Ok(links) => are_links(&links, wanted.2),
        Err(_) => false,
    }
}

fn are_least(composed: &Composed, wanted: &Least) -> bool {
    composed.ranks.as_slice() == wanted.0 && composed.needs.as_slice() == wanted.1
}

// Whether the graph has these ranks and needs, and this chain.
fn has(alloc: Global, graph: &Graph, wanted: &Least) -> bool {
    if !graph.is_composable() || !graph.has_closed_nodes() {
        return false;
    }
    match compose(alloc, graph, BACK) {
        Ok(composed) => {
            are_least(&composed, wanted) && has_chain(alloc, graph, &composed, wanted)
        }
        Err(_) => false,
    }
}

// Whether the graph is refused for a cycle that names this instance.
fn is_cyclic(alloc: Global, graph: &Graph, at: u32) -> bool {
    if !graph.is_composable() {
        return false;
    }
    match compose(alloc, graph, BACK) {
        Err(ComposeFault::Cycle(named)) => named == at,
        _ => false,
    }
}

fn is_made(alloc: Global, graph: &Graph, wanted: &Wanted) -> bool {
    match wanted {
        Wanted::Least(least) => has(alloc, graph, least),
        Wanted::Cycle(at) => is_cyclic(alloc, graph, *at),
        Wanted::Shapeless => !graph.is_composable(),
        Wanted::Nodeless => graph.is_composable() && !graph.has_closed_nodes(),
    }
}

impl WorkedRow for Row {
    fn holds(&self, alloc: Global) -> bool {
        match graph(alloc, self.0) {
            Ok(graph) => is_made(alloc, &graph, &self.1),
            Err(_) => false,
        }
    }
}

/// Instances, and the expected result for their graph.
pub struct Row(&'static [Inst], Wanted);

pub static ROWS: [(&str, &[Row]); 1] = [(
    "graph",
    &[
        // a root alone ends at its least deepest node
        Row(
            &[(NONE, 0, &[(0, 0), (4, 3), (2, 3), (1, 1)], &[])],
            Wanted::Least(Least(&[0], &[3], &[(0, 2, 3, NONE)])),
        ),
        // a call takes two bytes
        Row(
            &[
                (NONE, 0, &[(0, 0)], &[(0, 1, CALL, 1)]),
                (CALL, 9, &[(1, 0)], &[]),
            ],
            Wanted::Least(Least(&[1, 0], &[3, 0], &[(0, 0, 1, CALL), (1, 1, 3, NONE)])),
        ),
        // vectors 2 and 3 at one node, each of whose handlers permits the other: four bytes, and not two
        Row(
            &[
                (NONE, 0, &[(0, 0)], &[(0, 0, 2, 1), (0, 0, 3, 2)]),
                (2, 2, &[(1, 0)], &[(1, 0, 3, 4)]),
                (3, 4, &[(2, 0)], &[(2, 0, 2, 3)]),
                (2, 2, &[(3, 0)], &[]),
                (3, 4, &[(4, 0)], &[]),
            ],
            Wanted::Least(Least(
                &[2, 1, 1, 0, 0],
                &[4, 2, 2, 0, 0],
                &[(0, 0, 0, 2), (1, 1, 2, 3), (4, 4, 4, NONE)],
            )),
        ),
        // of two recursive functions, the one with the lesser entry is named
        Row(
            &[
                (NONE, 0, &[(0, 0)], &[(0, 0, CALL, 1), (0, 0, CALL, 2)]),
                (CALL, 9, &[(1, 0)], &[(1, 0, CALL, 1)]),
                (CALL, 7, &[(2, 0)], &[(2, 0, CALL, 2)]),
            ],
            Wanted::Cycle(2),
        ),
        // A handler that interrupts itself is named, although a function of a lesser entry is recursive; of two such handlers of one
        // vector, the one with the lesser number. The root reaches both, is not on a cycle, and is not named.
        Row(
            &[
                (NONE, 0, &[(0, 0)], &[(0, 0, CALL, 1), (0, 0, 3, 2)]),
                (CALL, 1, &[(1, 0)], &[(1, 0, CALL, 1)]),
                (3, 4, &[(2, 0)], &[(2, 0, 3, 3)]),
                (3, 4, &[(3, 0)], &[(3, 0, 3, 2)]),
            ],
            Wanted::Cycle(2),
        ),
        // a handler and a function between two cycles are on neither
        Row(
            &[
                (NONE, 0, &[(0, 0)], &[(0, 0, CALL, 1)]),
                (CALL, 8, &[(1, 0)], &[(1, 0, CALL, 1), (1, 0, 2, 2)]),
                (2, 2, &[(2, 0)], &[(2, 0, CALL, 3)]),
                (CALL, 3, &[(3, 0)], &[(3, 0, CALL, 4)]),
                (CALL, 7, &[(4, 0)], &[(4, 0, CALL, 5)]),
                (CALL, 6, &[(5, 0)], &[(5, 0, CALL, 4)]),
            ],
            Wanted::Cycle(5),
        ),
        // two cycles with a common instance, of which the later part was reached first
        Row(
            &[
                (NONE, 0, &[(0, 0)], &[(0, 0, CALL, 3)]),
                (CALL, 5, &[(1, 0)], &[(1, 0, CALL, 2)]),
                (CALL, 6, &[(2, 0)], &[(2, 0, CALL, 3), (2, 0, CALL, 2)]),
                (CALL, 9, &[(3, 0)], &[(3, 0, CALL, 4), (3, 0, CALL, 1)]),
                (CALL, 8, &[(4, 0)], &[(4, 0, CALL, 3)]),
            ],
            Wanted::Cycle(1),
        ),
        // a chain with ascending numbers, and one that an interrupt enters in the middle
        Row(
            &[
                (NONE, 0, &[(0, 0)], &[(0, 0, CALL, 1)]),
                (CALL, 5, &[(1, 1)], &[(1, 1, CALL, 2), (1, 1, 2, 4)]),
                (CALL, 6, &[(2, 2)], &[(2, 2, CALL, 3)]),
                (CALL, 7, &[(3, 3)], &[]),
                (2, 2, &[(4, 1)], &[(4, 1, CALL, 2)]),
            ],
            Wanted::Least(Least(
                &[4, 3, 1, 0, 2],
                &[15, 13, 7, 3, 10],
                &[
                    (0, 0, 0, CALL),
                    (1, 1, 3, 2),
                    (4, 4, 6, CALL),
                    (2, 2, 10, CALL),
                    (3, 3, 15, NONE),
                ],
            )),
        ),
        // two calls of one function: the deeper node counts, and the chain follows it
        Row(
            &[
                (
                    NONE,
                    0,
                    &[(0, 1), (5, 2)],
                    &[(0, 1, CALL, 1), (5, 2, CALL, 1)],
                ),
                (CALL, 9, &[(7, 4), (6, 4)], &[]),
            ],
            Wanted::Least(Least(&[1, 0], &[8, 4], &[(0, 5, 2, CALL), (1, 6, 8, NONE)])),
        ),
        // equally deep: a node's edge before a recur edge, and of two recur edges the one with the lesser target
        Row(
            &[
                (NONE, 0, &[(0, 0)], &[(9, 4, RECUR, 1), (9, 4, RECUR, 2)]),
                (CALL, 9, &[(1, 2)], &[]),
                (CALL, 7, &[(2, 2)], &[]),
            ],
            Wanted::Least(Least(&[1, 0, 0], &[8, 2, 2], &[(0, 9, 4, RECUR), (2, 2, 8, NONE)])),
        ),
        Row(
            &[
                (NONE, 0, &[(0, 0)], &[(9, 4, RECUR, 1), (3, 4, CALL, 2)]),
                (CALL, 7, &[(1, 2)], &[]),
                (CALL, 9, &[(2, 2)], &[]),
            ],
            Wanted::Least(Least(&[1, 0, 0], &[8, 2, 2], &[(0, 3, 4, CALL), (2, 2, 8, NONE)])),
        ),
        // at one node and equally deep: a call before an interrupt, and of two calls the one with the lesser target
        Row(
            &[
                (
                    NONE,
                    0,
                    &[(0, 0)],
                    &[(0, 0, 2, 1), (0, 0, CALL, 2), (0, 0, CALL, 3)],
                ),
                (2, 2, &[(1, 0)], &[]),
                (CALL, 9, &[(2, 0)], &[]),
                (CALL, 7, &[(3, 0)], &[]),
            ],
            Wanted::Least(Least(
                &[1, 0, 0, 0],
                &[2, 0, 0, 0],
                &[(0, 0, 0, CALL), (3, 3, 2, NONE)],
            )),
        ),
        // no instance; an entered instance that is missing; an offset too great, at a node and at an edge; no node
        Row(&[], Wanted::Shapeless),
        Row(
            &[(NONE, 0, &[(0, 0)], &[(0, 0, CALL, 1)])],
            Wanted::Shapeless,
        ),
        Row(&[(NONE, 0, &[(0, 32_769)], &[])], Wanted::Shapeless),
        Row(
            &[(NONE, 0, &[(0, 0)], &[(0, 32_769, CALL, 0)])],
            Wanted::Shapeless,
        ),
        Row(&[(NONE, 0, &[], &[])], Wanted::Nodeless),
    ],
)];
