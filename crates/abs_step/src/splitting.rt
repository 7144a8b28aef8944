//! Jump tables: a node at a table site splits by the possible bytes of r30, so that the paths to the entries stay apart.

ghost use Rattle.std.specs.Prelude.{◌≡◌, ◌<◌, Some, map, IfOk, IfErr};
ghost use Rattle.local_rules.specs.declared.local.NodeFault.TheVariants.{Memory};
ghost use Rattle.local_rules.specs.Raw.{all_of};
ghost use Rattle.local_rules.specs.Local as rows;
ghost use Rattle.abs_step.specs.Adding.{Inserts, GathersToo, plain};
ghost use Rattle.abs_step.specs.Leading.{LeadsAs};
ghost use Rattle.abs_step.specs.Sites.{task_of, site_of, picked};

use crate::flow::{Outgoing, staying};
use crate::instruction::at_instruction;
use crate::pointer_stores::first;
use crate::site::Site;
use crate::successors::copied;
use local_reads::picks::picks;
use local_rules::local::{NodeFault, Nodes};
use node_keys::NodeKey;
use pair_cuts::pick_cut;

// The most bytes by which a node splits.
const MOST_PICKS: usize = 64;

// The word of the `ijmp` of the table at which the node splits, if that has no `jump` line.
fn split_site(site: &Site<'_>) -> Option<u32>
    ensures { result ≡ rows.split_site (task_of site.now) site.now.key.now.pc site.now.key.now.pick }
{
    if site.key.pick.is_some() || site.key.pc >= site.flash.device().words() {
        return None;
    }
    let jump = site.flash.table_site(site.key.pc)?;
    match site.assumptions.jumps(jump) {
        Some(_) => None,
        None => Some(jump),
    }
}

// The successors with this byte picked, if anything is left of the state.
#[tactic(auto, using(crate::proofs::Slots::pick_slots))]
fn with_pick(nodes: &mut Nodes, site: &Site<'_>, byte: u8) -> Result<Outgoing, NodeFault>
    ensures { LeadsAs nodes.old nodes.new result (picked site.now byte) }
{
    let mut picked = copied(site.alloc, site.state)?;
    let left = pick_cut(&mut picked, byte);
    let led = if left {
        let key = NodeKey {
            pick: Some(byte),
            ..*site.key
        };
        let site = Site {
            alloc: site.alloc,
            device: site.device,
            flash: site.flash,
            assumptions: site.assumptions,
            key: &key,
            state: &picked,
        };
        at_instruction(nodes, &site)
    } else {
        staying(site.alloc, Ok(()))
    };
    drop(picked);
    led
}

// Adds the successors for one more byte, also if a fault was found before.
fn picked_too(
    nodes: &mut Nodes,
    site: &Site<'_>,
    byte: u8,
    fault: Option<NodeFault>,
) -> Result<Option<NodeFault>, NodeFault>
    ensures ok { IfOk result (GathersToo (plain nodes.old) (plain nodes.new) fault (picked site.now byte)) }
    ensures err { IfErr result (λ e. e ≡ Memory) }
{
    match with_pick(nodes, site, byte) {
        Ok(_) => Ok(fault),
        Err(found) => {
            let cause = found.cause();
            if cause == 0 {
                return Err(NodeFault::Memory);
            }
            Ok(Some(first(fault, found)))
        }
    }
}

// The successors for each of these bytes picked.
fn all_picked(nodes: &mut Nodes, site: &Site<'_>, picks: &[u8]) -> Result<(), NodeFault>
    ensures { Inserts nodes.old nodes.new result (all_of (map (λ byte. picked site.now byte) picks.now)) }
{
    let mut fault: Option<NodeFault> = None;
    for at in 0..picks.len() {
        fault = picked_too(nodes, site, picks[at], fault)?;
    }
    match fault {
        Some(fault) => Err(fault),
        None => Ok(()),
    }
}

// Splits the node, if there are few enough bytes. `jump` is the word of its `ijmp`.
fn split(nodes: &mut Nodes, site: &Site<'_>, jump: u32) -> Result<(), NodeFault>
    ensures { Inserts nodes.old nodes.new result (rows.split_by (Some jump) (task_of site.now) (site_of site.now)) }
{
    let picks = picks(site.alloc, site.state)?;
    if picks.len() > MOST_PICKS {
        return Err(NodeFault::UnresolvedJump(jump));
    }
    let added = all_picked(nodes, site, &picks);
    drop(picks);
    added
}

// The successors of the node; if it splits, those with each possible byte of r30.
pub(crate) fn splitting(nodes: &mut Nodes, site: &Site<'_>) -> Result<Outgoing, NodeFault>
    ensures { LeadsAs nodes.old nodes.new result (rows.split_row (task_of site.now) (site_of site.now)) }
{
    match split_site(site) {
        Some(jump) => staying(site.alloc, split(nodes, site, jump)),
        None => at_instruction(nodes, site),
    }
}
