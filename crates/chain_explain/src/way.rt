//! The path to a node within its instance.

ghost use Rattle.std.specs.Prelude.{ℕ, ◌≡◌, ◌+◌, ◌-◌, ◌<◌, ◌≤◌, Contains, length, map, slice_get, Some, IfOk};
ghost use Rattle.avr_model.specs.Devices.{device_of};
ghost use Rattle.local_rules.specs.declared.local.Node.{Node};
ghost use Rattle.local_laws.specs.Laws.{HasKey};
ghost use Rattle.edge_rules.specs.Views.{AreShown};
ghost use Rattle.chain_explain.specs.Reached.{IsReached};
ghost use Rattle.chain_explain.specs.Walks.{pc_at, IsWay};
ghost use Rattle.chain_explain.specs.Moves.{AreMoves, IsPortion, moves_of, moves_by, StayAbove};
ghost use Rattle.family_edges.specs.Tasks.{task_of};

use crate::numbering::number_of;
use avr_model::listed::Listed;
use edge_rules::edge::is_entry;
use family_edges::{Filled, Landing, Task, WorkedOut};
use node_keys::NodeKey;
use shortest_walk::shortest_walk;
use std::alloc::{AllocError, Global};

// The nodes of its instance to which a node moves, by their landings, counted from this number on.
fn counted_from(alloc: Global, low: usize, landings: &[Landing]) -> Result<Listed<u32>, AllocError>
    requires { (j : ℕ) → Contains (moves_of landings.now) j → low ≤ j }
    ensures { IfOk result (λ found. found ≡ map (λ j. j - low) (moves_of landings.now)) }
{
    let mut found = Listed::empty(alloc);
    for landing in landings {
        if !is_entry(landing.kind) {
            found.push((landing.at as usize - low) as u32)?;
        }
    }
    Ok(found)
}

// The graph of the moves of the nodes of these numbers, which lead to one another alone, counted from the first.
fn portion(
    alloc: Global,
    family: &WorkedOut,
    low: usize,
    high: usize,
) -> Result<Vec<Listed<u32>>, AllocError>
    requires order { low ≤ high }
    requires inside { high ≤ length family.now.landings }
    requires above { StayAbove low high (moves_by family.now.landings) }
    ensures { IfOk result (λ portion. IsPortion (moves_by family.now.landings) low (high - low) portion.items) }
{
    let landings = family.landings.as_slice();
    let mut portion = Vec::new(alloc);
    for at in low..high {
        let nexts = counted_from(alloc, low, landings[at].as_slice())?;
        portion.push(nexts)?;
    }
    Ok(portion)
}

// The program counters of the nodes of these numbers.
fn words(
    alloc: Global,
    nodes: &Filled,
    low: usize,
    numbers: &[u32],
) -> Result<Listed<u32>, AllocError>
    requires few { length nodes.now ≤ 65536 }
    requires inside { (i : ℕ) → Contains numbers.now i → low + i < length nodes.now }
    ensures { IfOk result (λ words. words ≡ map (λ i. pc_at nodes.now (low + i)) numbers.now) }
{
    let mut words = Listed::empty(alloc);
    for number in numbers {
        words.push(nodes.key(low + *number as usize).pc)?;
    }
    Ok(words)
}

// The words of the first of the shortest paths to the node of this key, which is reached, within its instance. Time is linear in the nodes
// and edges of the instance.
pub(crate) fn way(
    task: &Task<'_>,
    family: &WorkedOut,
    key: &NodeKey,
) -> Result<Listed<u32>, AllocError>
    requires shown { AreShown (device_of task.now.flash.now) family.now.nodes }
    requires moves { AreMoves (task_of task.now) family.now.nodes (moves_by family.now.landings) }
    requires there { HasKey family.now.nodes key.now }
    requires reached { IsReached (task_of task.now) family.now.nodes key.now }
    ensures { IfOk result (λ walk. (target : ℕ) (n : Node) → slice_get family.now.nodes target ≡ Some n → n.key ≡ key.now → IsWay (task_of task.now) family.now.nodes key.now.inst target walk) }
{
    let nodes = &family.nodes;
    let (low, high) = nodes.span(&key.inst);
    let start = number_of(nodes, &NodeKey::entry(&key.inst));
    let target = number_of(nodes, key);
    let graph = portion(task.alloc, family, low, high)?;
    let first = (start - low) as u32;
    match shortest_walk(task.alloc, &graph, &[first], (target - low) as u32)? {
        Some(numbers) => words(task.alloc, nodes, low, &numbers),
        None => unreachable!(),
    }
}
