//! The deepest chain of calls and interrupts.

ghost use Rattle.std.specs.Prelude.{◌≡◌, ◌+◌, ◌<◌, ◌≤◌, IfOk, length, slice_get, slice_index, true};
ghost use Rattle.avr_model.specs.State.{SIZE};
ghost use Rattle.std.specs.Ordering.{is_lt, nat_cmp};
ghost use Rattle.instance_graph.specs.declared.graph.Entered.{Entered};
ghost use Rattle.instance_graph.specs.declared.graph.ClosedNode.{ClosedNode};
ghost use Rattle.std.specs.Cmp.Lexicographic.{slice_cmp};
ghost use Rattle.instance_graph.specs.Chain.{way_numbers, edge_cmp, entry_of, IsChain, HasSome, HaveClosedNodes};
ghost use Rattle.instance_graph.specs.Graph.{IsGraph};
ghost use Rattle.instance_graph.specs.Least.{IsLeast};
ghost use Rattle.instance_graph.specs.Turn.{IsBestNode, IsBestEdge, IsTurn, AreLeastNeeds};

use crate::composing::Composed;
use crate::depth_first::read;
use crate::graph::{ClosedNode, Entered, Graph, GraphInst, GraphWay, Link};
use std::alloc::{AllocError, Global};
use std::cmp::Ordering;

/// How a chain continues from an instance.
#[derive(Clone, Copy)]
pub enum ChainTurn {
    /// It ends at this closed node.
    Ends(ClosedNode),
    /// It follows this edge.
    Enters(Entered),
}

// The least closed node of this offset.
fn best_node(nodes: &[ClosedNode], need: u32) -> Option<ClosedNode>
    ensures { IsBestNode need nodes.now result }
{
    let mut best: Option<ClosedNode> = None;
    for closed in nodes {
        let first = match best {
            None => true,
            Some(old) => closed.node < old.node,
        };
        if first && u32::from(closed.offset) == need {
            best = Some(*closed);
        }
    }
    best
}

// The word of the instance's entry.
fn entry(instances: &[GraphInst], inst: u32) -> u32
    ensures { result ≡ entry_of (slice_get instances.now inst) }
{
    match instances.get(inst as usize) {
        None => 0,
        Some(inst) => inst.key.entry,
    }
}

// The order of two ways: recur edges last.
fn way_cmp(a: GraphWay, b: GraphWay) -> Ordering
    ensures { result ≡ slice_cmp nat_cmp (way_numbers a) (way_numbers b) }
{
    match (a, b) {
        (GraphWay::Enters(a), GraphWay::Enters(b)) => a.cmp(&b),
        (GraphWay::Enters(_), GraphWay::Recur) => Ordering::Less,
        (GraphWay::Recur, GraphWay::Enters(_)) => Ordering::Greater,
        (GraphWay::Recur, GraphWay::Recur) => Ordering::Equal,
    }
}

// Whether the first edge precedes the second: by node, way, target and instance.
fn is_before(instances: &[GraphInst], a: &Entered, b: &Entered) -> bool
    ensures { result ≡ is_lt (edge_cmp instances.now a.now b.now) }
{
    let entry_a = entry(instances, a.into);
    let entry_b = entry(instances, b.into);
    a.node
        .cmp(&b.node)
        .then(way_cmp(a.way, b.way))
        .then(entry_a.cmp(&entry_b))
        .then(a.into.cmp(&b.into))
        .is_lt()
}

// The first of the edges that give this depth. In 64 bits no sum overflows.
fn best_edge(
    instances: &[GraphInst],
    needs: &[u32],
    edges: &[Entered],
    need: u32,
    back: u8,
) -> Option<Entered>
    ensures { IsBestEdge back instances.now needs.now need edges.now result }
{
    let mut best: Option<Entered> = None;
    for entered in edges {
        let first = match best {
            None => true,
            Some(old) => is_before(instances, entered, &old),
        };
        let below = read(needs, entered.into as usize);
        if first
            && u64::from(entered.offset) + u64::from(back) + u64::from(below) == u64::from(need)
        {
            best = Some(*entered);
        }
    }
    best
}

// How the chain continues from the instance.
fn goes_on(instances: &[GraphInst], needs: &[u32], inst: u32, back: u8) -> ChainTurn
    requires least { AreLeastNeeds back instances.now needs.now }
    requires within { inst < length instances.now }
    requires closed { HasSome instances.now inst }
    ensures { IsTurn back instances.now needs.now inst result }
{
    let here = &instances[inst as usize];
    let need = needs[inst as usize];
    match best_node(here.offsets.as_slice(), need) {
        Some(closed) => ChainTurn::Ends(closed),
        None => match best_edge(instances, needs, here.entered.as_slice(), need, back) {
            Some(entered) => ChainTurn::Enters(entered),
            None => unreachable!(),
        },
    }
}

/// The deepest chain. It starts at the root. In each instance it ends at the least node whose offset is the instance's need, if there is
/// one. Otherwise it follows the least edge whose offset + back + need is: by node, calls before interrupts, calls by target and interrupts
/// by vector, the one that keeps its own enable bit before the one that clears it; recur edges last, by target. Source: own.
pub fn chain(
    alloc: Global,
    graph: &Graph,
    composed: &Composed,
    back: u8,
) -> Result<Vec<Link>, AllocError>
    requires graph { IsGraph graph.now.instances }
    requires least { IsLeast back graph.now.instances composed.now.ranks composed.now.needs }
    requires bound { slice_index composed.now.needs 0 ≤ SIZE }
    requires closed { HaveClosedNodes graph.now.instances }
    ensures { IfOk result (λ links. IsChain back graph.now.instances composed.now.needs links.items) }
{
    let instances = graph.instances.as_slice();
    let needs = composed.needs.as_slice();
    let mut links = Vec::new(alloc);
    let mut inst = 0;
    let mut above = 0;
    'links: loop {
        match goes_on(instances, needs, inst, back) {
            ChainTurn::Ends(closed) => {
                links.push(Link {
                    inst,
                    node: closed.node,
                    depth: above + closed.offset,
                    way: None,
                })?;
                return Ok(links);
            }
            ChainTurn::Enters(entered) => {
                links.push(Link {
                    inst,
                    node: entered.node,
                    depth: above + entered.offset,
                    way: Some(entered.way),
                })?;
                above += entered.offset + u16::from(back);
                inst = entered.into;
            }
        }
    }
}
