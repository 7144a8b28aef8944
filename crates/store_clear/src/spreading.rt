//! The edges along which slots spread, by the numbers of nodes.

ghost use Rattle.std.specs.Prelude.{◌≡◌, ◌++◌, map, IfOk, OnOk};
ghost use Rattle.family_edges.specs.Landings.{AreLandings};
ghost use Rattle.clear_laws.specs.Held as held;
ghost use Rattle.clear_laws.specs.Links.{offsets_of};
ghost use Rattle.store_clear.specs.Conditions.{links_by, seeds_by, AreSlotSeeds, SpreadsAlong};
ghost use Rattle.family_edges.specs.Tasks.{task_of};

use avr_model::instruction::Instr;
use avr_model::listed::Listed;
use clear_laws::slots::SlotSeed;
use edge_rules::edge::is_entry;
use family_edges::{Filled, Landing, Task, WorkedOut};
use node_keys::EdgeKind;
use std::alloc::{AllocError, Global};

// The edges along which slots spread, by the numbers of nodes.
#[derive(Drop)]
pub(crate) struct Frames {
    // For each node, the targets of its edges within frames.
    pub links: Listed<Listed<u32>>,
    // For each node, its number of slots.
    pub offsets: Listed<u16>,
    // The slots that guarded pushes add.
    pub seeds: Listed<SlotSeed>,
}

// The targets within frames of these landings.
fn links_of(alloc: Global, landings: &[Landing]) -> Result<Listed<u32>, AllocError>
    ensures { IfOk result (λ to. to ≡ links_by landings.now) }
{
    let mut to = Listed::empty(alloc);
    for landing in landings {
        if !is_entry(landing.kind) {
            to.push(landing.at)?;
        }
    }
    Ok(to)
}

// The targets within frames, for each node.
fn all_links(alloc: Global, landings: &[Listed<Landing>]) -> Result<Listed<Listed<u32>>, AllocError>
    ensures { IfOk result (λ links. links ≡ map links_by landings.now) }
{
    let mut links = Listed::empty(alloc);
    for at in 0..landings.len() {
        links.push(links_of(alloc, landings[at].as_slice())?)?;
    }
    Ok(links)
}

// The number of slots of each node.
fn offsets_of(alloc: Global, nodes: &Filled) -> Result<Listed<u16>, AllocError>
    ensures { IfOk result (λ offsets. offsets ≡ offsets_of nodes.now) }
{
    let mut offsets = Listed::empty(alloc);
    for at in 0..nodes.count() {
        offsets.push(nodes.key(at).offset())?;
    }
    Ok(offsets)
}

// Whether this word pushes a guarded byte.
fn is_guarded_push(task: &Task<'_>, pc: u32) -> bool
    ensures { result ≡ held.is_guarded_push (task_of task.now) pc }
{
    match task.flash.instruction(pc) {
        None => false,
        Some(instr) => {
            let scratch = task.flash.is_scratch(pc) || task.assumptions.has_scratch(pc);
            matches!(&instr, Instr::Push(_)) && !scratch
        }
    }
}

// The targets of local edges with these landings, with the pushed slot.
fn add_seeds(
    landings: &[Landing],
    slot: u16,
    seeds: &mut Listed<SlotSeed>,
) -> Result<(), AllocError>
    ensures { OnOk result (seeds.new ≡ seeds.old ++ seeds_by slot landings.now) }
{
    for landing in landings {
        if matches!(landing.kind, EdgeKind::Local) {
            seeds.push(SlotSeed {
                node: landing.at,
                slot,
            })?;
        }
    }
    Ok(())
}

// The slots that guarded pushes add.
fn all_seeds(task: &Task<'_>, family: &WorkedOut) -> Result<Listed<SlotSeed>, AllocError>
    requires { AreLandings (task_of task.now) family.now.nodes family.now.landings }
    ensures { IfOk result (AreSlotSeeds (task_of task.now) family.now.nodes) }
{
    let mut seeds = Listed::empty(task.alloc);
    let landings = family.landings.as_slice();
    for at in 0..family.nodes.count() {
        let key = family.nodes.key(at);
        if is_guarded_push(task, key.pc) {
            add_seeds(landings[at].as_slice(), key.offset(), &mut seeds)?;
        }
    }
    Ok(seeds)
}

// The edges along which slots spread. No local part is computed.
pub(crate) fn frames_of(task: &Task<'_>, family: &WorkedOut) -> Result<Frames, AllocError>
    requires { AreLandings (task_of task.now) family.now.nodes family.now.landings }
    ensures { IfOk result (λ f. SpreadsAlong (task_of task.now) family.now.nodes f.links f.offsets f.seeds) }
{
    let seeds = all_seeds(task, family)?;
    let offsets = offsets_of(task.alloc, &family.nodes)?;
    let links = all_links(task.alloc, family.landings.as_slice())?;
    Ok(Frames {
        links,
        offsets,
        seeds,
    })
}
