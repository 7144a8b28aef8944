//! The graph of a nesting.

ghost use Rattle.std.specs.Prelude.{◌≡◌, ◌+◌, ◌≤◌, ◌∷◌, [], length, IfOk, OnOk};
ghost use Rattle.indexmap.specs.IndexSet.{index_set_len};
ghost use Rattle.node_keys.specs.Keys.{root_inst};
ghost use Rattle.round_nesting.specs.Drawn.{number_of, IsDrawn, DrawsEntrances};

use crate::notes::{NotedEntrance, NotedSpot};
use avr_model::listed::Listed;
use indexmap::IndexSet;
use instance_graph::{ClosedNode, Entered, Graph, GraphInst, GraphWay};
use node_keys::{EdgeKind, InstKey};
use std::alloc::{AllocError, Global};

// The number of an instance: 0 for the root, by order for the others, and the number behind all for one without a note.
pub(crate) fn number(others: &IndexSet<InstKey>, inst: &InstKey) -> usize
    ensures is { result ≡ number_of (root_inst ∷ others.now.keys) inst.now }
    ensures within { result ≤ index_set_len others.now + 1 }
{
    if *inst == InstKey::root() {
        return 0;
    }
    let count = others.len();
    match others.get_index_of(inst) {
        Some(at) => at + 1,
        None => count + 1,
    }
}

// An instance without nodes and edges.
fn bare(alloc: Global, key: InstKey) -> GraphInst
    ensures { result ≡ record { key = key; offsets = []; entered = [] } }
{
    GraphInst {
        key,
        offsets: Listed::empty(alloc),
        entered: Listed::empty(alloc),
    }
}

// The instances of the graph, and one more for all without a number.
fn instances(alloc: Global, others: &IndexSet<InstKey>) -> Result<Vec<GraphInst>, AllocError>
    requires { index_set_len others.now ≤ 65535 }
    ensures { IfOk result (λ gs. IsDrawn (root_inst ∷ others.now.keys) [] [] gs.items) }
{
    let mut instances = Vec::new(alloc);
    instances.push(bare(alloc, InstKey::root()))?;
    for other in others.as_slice() {
        instances.push(bare(alloc, *other))?;
    }
    instances.push(bare(alloc, InstKey::root()))?;
    Ok(instances)
}

// The closed nodes of spots. Nodes of an instance are not distinguished.
fn draw_spots(
    others: &IndexSet<InstKey>,
    spots: &[NotedSpot],
    instances: &mut [GraphInst],
) -> Result<(), AllocError>
    requires few { index_set_len others.now ≤ 65535 }
    requires drawn { IsDrawn (root_inst ∷ others.now.keys) [] [] instances.old }
    ensures count { length instances.new ≡ length instances.old }
    ensures drawn { OnOk result (IsDrawn (root_inst ∷ others.now.keys) spots.now [] instances.new) }
{
    for spot in spots {
        let at = number(others, spot.inst());
        instances[at].offsets.push(ClosedNode {
            node: 0,
            offset: spot.offset(),
        })?;
    }
    Ok(())
}

// The edges of entrances. The way of an edge does not matter.
fn draw_entrances(
    others: &IndexSet<InstKey>,
    entrances: &[NotedEntrance],
    instances: &mut [GraphInst],
) -> Result<(), AllocError>
    requires few { index_set_len others.now ≤ 65535 }
    requires count { length instances.old ≡ index_set_len others.now + 2 }
    ensures { DrawsEntrances result others.now.keys instances.old entrances.now instances.new }
{
    for entrance in entrances {
        let into = number(others, entrance.into()) as u32;
        let from = number(others, entrance.from());
        instances[from].entered.push(Entered {
            node: 0,
            offset: entrance.offset(),
            way: GraphWay::Enters(EdgeKind::Call),
            into,
        })?;
    }
    Ok(())
}

// The graph of the root and these other instances.
pub(crate) fn drawn(
    alloc: Global,
    others: &IndexSet<InstKey>,
    spots: &[NotedSpot],
    entrances: &[NotedEntrance],
) -> Result<Graph, AllocError>
    requires { index_set_len others.now ≤ 65535 }
    ensures { IfOk result (λ graph. IsDrawn (root_inst ∷ others.now.keys) spots.now entrances.now graph.instances) }
{
    let mut instances = instances(alloc, others)?;
    draw_spots(others, spots, instances.as_mut_slice())?;
    draw_entrances(others, entrances, instances.as_mut_slice())?;
    Ok(Graph {
        instances: Listed::new(instances),
    })
}
