//! Tests of the preconditions of `compose` and `chain`.

ghost use Rattle.std.specs.Prelude.{◌≡◌, ◌<◌, ◌≤◌, Contains, true, false};
ghost use Rattle.avr_model.specs.State as model;
ghost use Rattle.instance_graph.specs.declared.graph.Entered.{Entered};
ghost use Rattle.instance_graph.specs.declared.graph.ClosedNode.{ClosedNode};
ghost use Rattle.instance_graph.specs.Chain.{HasSome, HaveClosedNodes};
ghost use Rattle.instance_graph.specs.Graph.{IsGraph};

use crate::graph::{ClosedNode, Entered, Graph, GraphInst};
use avr_model::device::SIZE;

const MOST_INSTANCES: usize = 65_537;

const GREATEST_OFFSET: u16 = SIZE;

// Whether each offset is at most 32,768.
fn are_low(nodes: &[ClosedNode]) -> bool
    ensures yes { result ≡ true → (p : ClosedNode) → Contains nodes.now p → p.offset ≤ model.SIZE }
    ensures no { result ≡ false → (p : ClosedNode) × Contains nodes.now p × (model.SIZE < p.offset) }
{
    for closed in nodes {
        if closed.offset > GREATEST_OFFSET {
            return false;
        }
    }
    true
}

// Whether each offset is at most 32,768, and each edge enters one of `count` instances.
fn lead_inside(edges: &[Entered], count: usize) -> bool
    ensures yes { result ≡ true → (e : Entered) → Contains edges.now e → (e.offset ≤ model.SIZE) × (e.into < count) }
    ensures no { result ≡ false → (e : Entered) × Contains edges.now e × ((e.offset ≤ model.SIZE) × (e.into < count) → ⊥) }
{
    for entered in edges {
        if entered.offset > GREATEST_OFFSET {
            return false;
        }
        if entered.into as usize >= count {
            return false;
        }
    }
    true
}

// Whether this instance exists and has a closed node.
fn has_closed_node(instances: &[GraphInst], inst: u32) -> bool
    ensures yes { result ≡ true → HasSome instances.now inst }
    ensures no { result ≡ false → HasSome instances.now inst → ⊥ }
{
    let inst = inst as usize;
    if inst >= instances.len() {
        return false;
    }
    let here = &instances[inst];
    !here.offsets.as_slice().is_empty()
}

// Whether each edge enters an instance with a closed node.
fn lead_to_closed_nodes(instances: &[GraphInst], edges: &[Entered]) -> bool
    ensures yes { result ≡ true → (e : Entered) → Contains edges.now e → HasSome instances.now e.into }
    ensures no { result ≡ false → (e : Entered) × Contains edges.now e × (HasSome instances.now e.into → ⊥) }
{
    for entered in edges {
        if !has_closed_node(instances, entered.into) {
            return false;
        }
    }
    true
}

impl Graph {
    /// Whether `compose` accepts the graph: 1 to 65,537 instances, all entered ones among them, each offset at most 32,768.
    pub fn is_composable(&self) -> bool
        ensures yes { result ≡ true → IsGraph self.now.instances }
        ensures no { result ≡ false → IsGraph self.now.instances → ⊥ }
    {
        let instances = self.instances.as_slice();
        let count = instances.len();
        if count == 0 {
            return false;
        }
        if count > MOST_INSTANCES {
            return false;
        }
        for i in 0..count {
            let here = &instances[i];
            if !are_low(here.offsets.as_slice()) {
                return false;
            }
            if !lead_inside(here.entered.as_slice(), count) {
                return false;
            }
        }
        true
    }

    /// Whether the root and each entered instance have a closed node, as `chain` requires.
    pub fn has_closed_nodes(&self) -> bool
        ensures yes { result ≡ true → HaveClosedNodes self.now.instances }
        ensures no { result ≡ false → HaveClosedNodes self.now.instances → ⊥ }
    {
        let instances = self.instances.as_slice();
        if !has_closed_node(instances, 0) {
            return false;
        }
        for i in 0..instances.len() {
            let here = &instances[i];
            if !lead_to_closed_nodes(instances, here.entered.as_slice()) {
                return false;
            }
        }
        true
    }
}
