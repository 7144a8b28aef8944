//! The instance that names a cycle.

ghost use Rattle.std.specs.Prelude.{ℕ, ◌≡◌, ◌⊎◌, ◌+◌, ◌<◌, ◌≤◌, Contains, IfOk, IfSome, length, slice_index, true, false};
ghost use Rattle.instance_graph.specs.declared.graph.Entered.{Entered};
ghost use Rattle.instance_graph.specs.Graph.{ReachesBy, IsGraph};
ghost use Rattle.instance_graph.specs.Cycle.{group_of, number_of};
ghost use Rattle.instance_graph.specs.Search.{IsNamedOf, IsNamedBelow, AreLayers};
ghost use Rattle.instance_graph.specs.Table.{IsSoundTable};

use crate::depth_first::read;
use crate::found::Found;
use crate::graph::{Entered, GraphInst};
use crate::reach::reaches_itself;
use node_keys::{InstKey, Kind};
use std::alloc::{AllocError, Global};

// Whether the first is named before the second: vectors by number, then all others by entry.
fn is_earlier(a: &InstKey, b: &InstKey) -> bool
    ensures yes { result ≡ true → (group_of a.now.kind < group_of b.now.kind) ⊎ ((group_of a.now.kind ≡ group_of b.now.kind) × (number_of a.now.kind a.now.entry < number_of b.now.kind b.now.entry)) }
    ensures no { result ≡ false → (group_of b.now.kind < group_of a.now.kind) ⊎ ((group_of b.now.kind ≡ group_of a.now.kind) × (number_of b.now.kind b.now.entry ≤ number_of a.now.kind a.now.entry)) }
{
    match a.kind {
        Kind::Vector(v) => match b.kind {
            Kind::Vector(w) => v < w,
            Kind::Call => true,
            Kind::Root => true,
        },
        Kind::Call => match b.kind {
            Kind::Vector(_) => false,
            Kind::Call => a.entry < b.entry,
            Kind::Root => a.entry < b.entry,
        },
        Kind::Root => match b.kind {
            Kind::Vector(_) => false,
            Kind::Call => a.entry < b.entry,
            Kind::Root => a.entry < b.entry,
        },
    }
}

// The greatest number among the targets of these edges; 0 if there are none.
fn highest(edges: &[Entered], numbers: &[u32]) -> u32
    ensures { (e : Entered) → Contains edges.now e → slice_index numbers.now e.into ≤ result }
{
    let mut most: u32 = 0;
    for entered in edges {
        most = most.max(read(numbers, entered.into as usize));
    }
    most
}

// Whether instance i may reach itself: it is not settled, and enters one whose number is not below its own.
fn is_candidate(graph: &[GraphInst], table: &[Option<Found>], numbers: &[u32], i: usize) -> bool
    requires sound { (back : ℕ) × IsSoundTable back graph.now table.now }
    requires layers { AreLayers graph.now numbers.now }
    requires within { i < length graph.now }
    ensures { result ≡ false → ReachesBy graph.now i i → ⊥ }
{
    if table[i].is_some() {
        return false;
    }
    highest(graph[i].entered.as_slice(), numbers) >= read(numbers, i)
}

// Whether instance i is named after the best so far, or not at all.
fn is_behind(graph: &[GraphInst], best: Option<u32>, i: usize) -> bool
    requires graph { IsGraph graph.now }
    requires within { i < length graph.now }
    requires best { IsNamedBelow graph.now i best }
    ensures yes { result ≡ true → IsNamedBelow graph.now (i + 1) best }
    ensures no { result ≡ false → ReachesBy graph.now i i → IsNamedOf graph.now (i + 1) i }
{
    match best {
        None => false,
        Some(at) => {
            let at = at as usize;
            let (held, here) = (&graph[at].key, &graph[i].key);
            if at <= i {
                !is_earlier(here, held)
            } else {
                is_earlier(held, here)
            }
        }
    }
}

// The candidate that is named first.
fn first_candidate(graph: &[GraphInst], table: &[Option<Found>], numbers: &[u32]) -> Option<usize>
    requires sound { (back : ℕ) × IsSoundTable back graph.now table.now }
    requires layers { AreLayers graph.now numbers.now }
    ensures { IfSome result (λ at. at < length graph.now) }
{
    let mut best: Option<usize> = None;
    for i in 0..graph.len() {
        let first = match best {
            None => true,
            Some(at) => is_earlier(&graph[i].key, &graph[at].key),
        };
        if first && is_candidate(graph, table, numbers, i) {
            best = Some(i);
        }
    }
    best
}

// An instance that reaches itself. If the numbers are components, it is the named one.
fn guess(
    alloc: Global,
    graph: &[GraphInst],
    table: &[Option<Found>],
    numbers: &[u32],
) -> Result<Option<u32>, AllocError>
    requires graph { IsGraph graph.now }
    requires sound { (back : ℕ) × IsSoundTable back graph.now table.now }
    requires layers { AreLayers graph.now numbers.now }
    ensures { IfOk result (IsNamedBelow graph.now 0) }
{
    let Some(at) = first_candidate(graph, table, numbers) else {
        return Ok(None);
    };
    let reaches = reaches_itself(alloc, graph, at)?;
    if reaches {
        Ok(Some(at as u32))
    } else {
        Ok(None)
    }
}

// These numbers if no instance enters one of a greater number, otherwise one number for all.
fn layers(alloc: Global, graph: &[GraphInst], numbers: Vec<u32>) -> Result<Vec<u32>, AllocError>
    ensures { IfOk result (λ layers. AreLayers graph.now layers.items) }
{
    for i in 0..graph.len() {
        if highest(graph[i].entered.as_slice(), &numbers) > read(&numbers, i) {
            return vec![in alloc; 0; graph.len()];
        }
    }
    Ok(numbers)
}

/// The named instance, if one reaches itself. `table` holds what was settled. Any numbers are sound; with component numbers only one
/// instance is searched.
pub fn first_named(
    alloc: Global,
    graph: &[GraphInst],
    table: &[Option<Found>],
    numbers: Vec<u32>,
) -> Result<Option<u32>, AllocError>
    requires graph { IsGraph graph.now }
    requires sound { (back : ℕ) × IsSoundTable back graph.now table.now }
    ensures { IfOk result (IsNamedBelow graph.now (length graph.now)) }
{
    let layers = layers(alloc, graph, numbers)?;
    let numbers = layers.as_slice();
    let mut best = guess(alloc, graph, table, numbers)?;
    for i in 0..graph.len() {
        if is_candidate(graph, table, numbers, i) && !is_behind(graph, best, i) {
            let reaches = reaches_itself(alloc, graph, i)?;
            if reaches {
                best = Some(i as u32);
            }
        }
    }
    Ok(best)
}
