//! The nodes that a slot reaches.

ghost use Rattle.std.specs.Prelude.{◌≡◌, ◌<◌, ℕ, Contains, IfOk, OnOk, length, slice_index_or, false, []};
ghost use Rattle.clear_laws.specs.Reach.{offset_at, AreReachMarks, AreInside};
ghost use Rattle.store_clear.specs.Spreading.{IsOne, IsSeed, IsNodeWithSlot, IsReachSpread, IsSpreading};

use avr_model::listed::Listed;
use clear_laws::slots::SlotSeed;
use std::alloc::{AllocError, Global};

// Marks a node, and puts it on the stack if it is new.
fn mark(node: u32, seen: &mut [bool], stack: &mut Vec<u32>) -> Result<(), AllocError>
    requires { node < length seen.old }
    ensures { OnOk result (IsReachSpread (IsOne node) seen.old stack.old.items seen.new stack.new.items) }
{
    if !seen[node as usize] {
        stack.push(node)?;
        seen[node as usize] = true;
    }
    Ok(())
}

// Marks the node of a seed, if it is one of this slot.
fn mark_seed(
    seed: SlotSeed,
    slot: u16,
    seen: &mut [bool],
    stack: &mut Vec<u32>,
) -> Result<(), AllocError>
    requires { seed.node < length seen.old }
    ensures { OnOk result (IsReachSpread (IsSeed seed slot) seen.old stack.old.items seen.new stack.new.items) }
{
    if seed.slot == slot {
        mark(seed.node, seen, stack)?;
    }
    Ok(())
}

// Marks all nodes whose seed is this slot.
fn mark_seeds(
    seeds: &[SlotSeed],
    slot: u16,
    seen: &mut [bool],
    stack: &mut Vec<u32>,
) -> Result<(), AllocError>
    requires { (s : SlotSeed) → Contains seeds.now s → s.node < length seen.old }
    ensures { OnOk result (IsReachSpread (λ j. Contains seeds.now (record { node = j; slot = slot })) seen.old stack.old.items seen.new stack.new.items) }
{
    for at in 0..seeds.len() {
        mark_seed(seeds[at], slot, seen, stack)?;
    }
    Ok(())
}

// Marks the target of a link, if it has the slot.
#[tactic(auto, using(crate::proofs::Marks::next_marked, crate::proofs::Marks::next_passed))]
fn mark_next(
    node: u32,
    offsets: &[u16],
    slot: u16,
    seen: &mut [bool],
    stack: &mut Vec<u32>,
) -> Result<(), AllocError>
    requires inside { node < length seen.old }
    requires same { length offsets.now ≡ length seen.old }
    ensures { OnOk result (IsReachSpread (IsNodeWithSlot offsets.now slot node) seen.old stack.old.items seen.new stack.new.items) }
{
    if slot < offsets[node as usize] {
        mark(node, seen, stack)?;
    }
    Ok(())
}

// Marks the targets of these links that have the slot.
fn mark_all(
    links: &[u32],
    offsets: &[u16],
    slot: u16,
    seen: &mut [bool],
    stack: &mut Vec<u32>,
) -> Result<(), AllocError>
    requires inside { (t : ℕ) → Contains links.now t → t < length seen.old }
    requires same { length offsets.now ≡ length seen.old }
    ensures { OnOk result (IsReachSpread (λ t. Contains links.now t × (slot < offset_at offsets.now t)) seen.old stack.old.items seen.new stack.new.items) }
{
    for at in 0..links.len() {
        mark_next(links[at], offsets, slot, seen, stack)?;
    }
    Ok(())
}

// The links, offsets and seeds of all nodes.
#[derive(Clone, Copy)]
struct LinkedNodes<'a> {
    links: &'a [Listed<u32>],
    offsets: &'a [u16],
    seeds: &'a [SlotSeed],
}

// Marks all reached nodes.
fn spread(
    alloc: Global,
    nodes: &LinkedNodes<'_>,
    slot: u16,
    seen: &mut [bool],
) -> Result<(), AllocError>
    requires inside { AreInside nodes.now.links.now nodes.now.offsets.now nodes.now.seeds.now }
    requires same { length seen.old ≡ length nodes.now.offsets.now }
    requires none { (k : ℕ) → slice_index_or seen.old k false ≡ false }
    ensures { OnOk result (IsSpreading nodes.now.links.now nodes.now.offsets.now nodes.now.seeds.now slot seen.new []) }
{
    let mut stack = Vec::new(alloc);
    mark_seeds(nodes.seeds, slot, seen, &mut stack)?;
    'marks: loop {
        match stack.pop() {
            None => return Ok(()),
            Some(node) => mark_all(
                nodes.links[node as usize].as_slice(),
                nodes.offsets,
                slot,
                seen,
                &mut stack,
            )?,
        }
    }
}

// The nodes that a slot reaches, by number: those of its seeds, and targets of links from reached nodes whose offset is above the slot.
// Links and offsets are given for each node, and links and seeds lead to nodes. Fails if memory runs out. Each link is visited once.
pub(crate) fn reached(
    alloc: Global,
    links: &[Listed<u32>],
    offsets: &[u16],
    seeds: &[SlotSeed],
    slot: u16,
) -> Result<Vec<bool>, AllocError>
    requires { AreInside links.now offsets.now seeds.now }
    ensures { IfOk result (λ marks. AreReachMarks links.now offsets.now seeds.now slot marks.items) }
{
    let mut seen = vec![in alloc; false; offsets.len()]?;
    let nodes = LinkedNodes {
        links,
        offsets,
        seeds,
    };
    spread(alloc, &nodes, slot, seen.as_mut_slice())?;
    Ok(seen)
}
