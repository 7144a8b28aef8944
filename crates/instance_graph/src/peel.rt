//! Ranks and needs, from the instances that enter none upwards.

ghost use Rattle.std.specs.Prelude.{◌≡◌, ℕ, ◌+◌, ◌*◌, ◌<◌, ◌≤◌, Contains, None, Some, IfSome, IfNone, IfOk, max, length, true, false};
ghost use Rattle.instance_graph.specs.declared.graph.Entered.{Entered};
ghost use Rattle.instance_graph.specs.declared.graph.ClosedNode.{ClosedNode};
ghost use Rattle.instance_graph.specs.declared.found.Found.{Found};
ghost use Rattle.instance_graph.specs.Graph.{IsGraph};
ghost use Rattle.instance_graph.specs.Table.{at, IsVisit, ArePassed, IsOver, IsSmall, IsSoundTable, IsInstStuck};

use crate::found::Found;
use crate::graph::{ClosedNode, Entered, GraphInst};
use std::alloc::{AllocError, Global};

// The greatest offset; 0 if there is none.
fn greatest(nodes: &[ClosedNode]) -> u32
    ensures above { (p : ClosedNode) → Contains nodes.now p → p.offset ≤ result }
    ensures least { (m : ℕ) → ((p : ClosedNode) → Contains nodes.now p → p.offset ≤ m) → result ≤ m }
{
    let mut most: u32 = 0;
    for closed in nodes {
        most = most.max(u32::from(closed.offset));
    }
    most
}

// The least rank and need above those of an instance's nodes and of the instances it enters, if all of these are known.
fn settle(inst: &GraphInst, table: &[Option<Found>], back: u8) -> Option<Found>
    requires small { (j : ℕ) (x : Found) → at table.now j ≡ Some x → IsSmall x 65537 }
    requires within { (e : Entered) → Contains inst.now.entered e → e.into < length table.now }
    ensures some { IfSome result (λ f. IsOver back inst.now.entered inst.now.offsets table.now f) }
    ensures none { IfNone result ((e : Entered) × Contains inst.now.entered e × (at table.now e.into ≡ None)) }
{
    let mut found = Found {
        rank: 0,
        need: greatest(inst.offsets.as_slice()),
    };
    for entered in inst.entered.as_slice() {
        let into = entered.into as usize;
        match table[into] {
            None => return None,
            Some(x) => {
                found = Found {
                    rank: found.rank.max(x.rank + 1),
                    need: found
                        .need
                        .max(u32::from(entered.offset) + u32::from(back) + x.need),
                };
            }
        }
    }
    Some(found)
}

// Settles one instance if possible. Returns whether it did.
fn visit(graph: &[GraphInst], table: &mut [Option<Found>], i: usize, back: u8) -> bool
    requires graph { IsGraph graph.now }
    requires sound { IsSoundTable back graph.now table.old }
    requires within { i < length graph.now }
    ensures { IsVisit back graph.now table.old i result table.new }
{
    if table[i].is_some() {
        return false;
    }
    match settle(&graph[i], table, back) {
        None => false,
        Some(found) => {
            table[i] = Some(found);
            true
        }
    }
}

// Visits each instance once. Returns whether one was settled.
fn pass(graph: &[GraphInst], table: &mut [Option<Found>], back: u8) -> bool
    requires graph { IsGraph graph.now }
    requires sound { IsSoundTable back graph.now table.old }
    ensures { ArePassed back graph.now table.old (length graph.now) result table.new }
{
    let mut grew = false;
    for i in 0..graph.len() {
        let grown = visit(graph, table, i, back);
        grew |= grown;
    }
    grew
}

// Visits instances in this order.
fn settle_in(graph: &[GraphInst], table: &mut [Option<Found>], order: &[u32], back: u8)
    requires graph { IsGraph graph.now }
    requires sound { IsSoundTable back graph.now table.old }
    ensures { IsSoundTable back graph.now table.new }
{
    for inst in order {
        let i = *inst as usize;
        if i < graph.len() {
            visit(graph, table, i, back);
        }
    }
}

/// Settles instances until none is left that enters settled ones alone. Any order is sound. If each instance comes after those it enters,
/// one pass suffices, and one more shows that nothing is left.
pub fn peel(
    alloc: Global,
    graph: &[GraphInst],
    order: &[u32],
    back: u8,
) -> Result<Vec<Option<Found>>, AllocError>
    requires graph { IsGraph graph.now }
    ensures sound { IfOk result (λ table. IsSoundTable back graph.now table.items) }
    ensures stuck { IfOk result (λ table. (i : ℕ) → i < length graph.now → at table.items i ≡ None → IsInstStuck graph.now table.items i) }
{
    let mut table = vec![in alloc; None; graph.len()]?;
    settle_in(graph, table.as_mut_slice(), order, back);
    loop {
        let grew = pass(graph, table.as_mut_slice(), back);
        if !grew {
            break;
        }
    }
    Ok(table)
}
