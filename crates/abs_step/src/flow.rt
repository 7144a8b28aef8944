//! Control flow: jumps, skips, calls and returns.

ghost use Rattle.std.specs.Prelude.{◌≡◌, ◌<◌, map, filter, None, Some, IfOk, IfErr};
ghost use Rattle.avr_model.specs.Assumptions.{lists};
ghost use Rattle.local_rules.specs.declared.local.NodeFault.TheVariants.{Memory};
ghost use Rattle.local_rules.specs.Raw.{Raw, further};
ghost use Rattle.local_rules.specs.Flow as flow;
ghost use Rattle.local_rules.specs.Local.{bit_skip, node_of};
ghost use Rattle.abs_step.specs.Adding.{Moving, Adds};
ghost use Rattle.abs_step.specs.Leading.{FindsWords, LeadsOn};
ghost use Rattle.abs_step.specs.Sites.{task_of, site_of, port_at, z_words, targets_above};

use crate::cuts::carry_branch;
use crate::moves::Moves;
use crate::site::Site;
use crate::stack::room_row;
use crate::successors::{add_copy, branch, branch_by, off_table};
use abs_state::AbsState;
use assumption_files::targets_on;
use avr_model::device::Device;
use avr_model::instruction::{Base, Bit, LowPort};
use avr_model::listed::Listed;
use bit_domain::{Tri, TriByte};
use local_reads::flow::{further, is_target, port_bit, reading_zero};
use local_rows::arithmetic::carry_bit;
use local_rows::registers::pair;
use local_rows::status::flag_at;
use local_rows::transfer::base_register;
use local_rules::local::{CallSite, Exit, NodeFault};
use node_keys::{Kind, NodeKey, SpForm};
use std::alloc::Global;

// `brbs` of flag `n` if `on`, else `brbc`: to the first word if it is taken, else to the other. A branch on C cuts the register of the
// carry tag.
pub(crate) fn flag_branch(
    nodes: &mut Moves<'_>,
    site: &Site<'_>,
    n: Bit,
    on: bool,
    words: (u32, u32),
) -> Result<(), NodeFault>
    ensures { Adds nodes.old nodes.new result (flow.flag_turn on n (node_of (site_of site.now)) words.0 words.1) }
{
    let (taken, other) = words;
    if n.get() == 0 {
        let (set, clear) = if on { (taken, other) } else { (other, taken) };
        return carry_branch(nodes, site, carry_bit(site.state), set, clear);
    }
    let flag = flag_at(site.key, site.state, n);
    let condition = if on { flag } else { flag.complement() };
    branch(nodes, site, condition, words)
}

// The word after the next instruction, and that of the next instruction.
pub(crate) fn skip_words(site: &Site<'_>) -> (u32, u32)
    ensures past { result.0 ≡ flow.past site.now.flash.now (site_of site.now) }
    ensures next { result.1 ≡ further site.now.device site.now.key.now 1 }
{
    let length = avr_decode::length(site.flash.word(site.key.pc.wrapping_add(1)));
    (
        further(site.device, site.key, 1 + length),
        further(site.device, site.key, 1),
    )
}

// Skips the next instruction if the condition holds.
pub(crate) fn skipping(
    nodes: &mut Moves<'_>,
    site: &Site<'_>,
    condition: Tri,
) -> Result<(), NodeFault>
    ensures { Adds nodes.old nodes.new result (flow.skip_if site.now.flash.now (site_of site.now) condition) }
{
    branch(nodes, site, condition, skip_words(site))
}

// Skips the next instruction if a bit of an I/O address is 1 (`sbis`), or 0 (`sbic`). A bit that reads 0 may refine the key.
pub(crate) fn port_skip(
    nodes: &mut Moves<'_>,
    site: &Site<'_>,
    address: LowPort,
    bit: Bit,
    on: bool,
) -> Result<(), NodeFault>
    ensures { Adds nodes.old nodes.new result (bit_skip (task_of site.now) (site_of site.now) (port_at site.now address) bit on) }
{
    let may = site.assumptions.reads_masks(site.device);
    let is_one = port_bit(site.device, may, site.key, site.state, address, bit);
    let zero = reading_zero(site.device, may, site.key, address, bit);
    let (past, next) = skip_words(site);
    if on {
        let (taken, other) = (off_table(site.key, past), off_table(&zero, next));
        branch_by(nodes, site, is_one, taken, other)
    } else {
        let (taken, other) = (off_table(&zero, past), off_table(site.key, next));
        branch_by(nodes, site, is_one.complement(), taken, other)
    }
}

// The listed words that the bits of Z with this third byte permit.
fn listed_targets(
    alloc: Global,
    device: Device,
    state: &AbsState,
    bank: TriByte,
    listed: &[u32],
) -> Result<Vec<u32>, NodeFault>
    ensures ok { IfOk result (λ v. v.items ≡ filter (lists (z_words device state.now bank)) listed.now) }
    ensures err { IfErr result (λ e. e ≡ Memory) }
{
    let mut words = Vec::new(alloc);
    for at in 0..listed.len() {
        if is_target(device, state, bank, listed[at]) {
            if words.push(listed[at]).is_err() {
                return Err(NodeFault::Memory);
            }
        }
    }
    Ok(words)
}

// All words that the bits of Z with this third byte permit; a fault if there are too many.
fn unlisted_targets(
    alloc: Global,
    device: Device,
    state: &AbsState,
    bank: TriByte,
    pc: u32,
) -> Result<Vec<u32>, NodeFault>
    ensures { FindsWords result (flow.targets_by device None (flow.z_with state.now bank)) pc }
{
    let (low, high) = pair(state, base_register(Base::Z));
    match targets_on(device, &low.bits, &high.bits, &bank) {
        Ok(all) => Ok(all.as_slice().to_vec(alloc)?),
        Err(_) => Err(NodeFault::UnresolvedJump(pc)),
    }
}

// The possible targets of an indirect transfer with this third byte above Z.
pub(crate) fn targets_at(site: &Site<'_>, bank: TriByte) -> Result<Vec<u32>, NodeFault>
    ensures { FindsWords result (targets_above site.now bank) site.now.key.now.pc }
{
    match site.assumptions.jumps(site.key.pc) {
        Some(listed) => listed_targets(site.alloc, site.device, site.state, bank, listed),
        None => unlisted_targets(site.alloc, site.device, site.state, bank, site.key.pc),
    }
}

// Continues at each of these words.
fn add_words(nodes: &mut Moves<'_>, site: &Site<'_>, words: &[u32]) -> Result<(), NodeFault>
    ensures { Adds nodes.old nodes.new result (flow.jumping (Some words.now) site.now.key.now site.now.state.now) }
{
    for at in 0..words.len() {
        add_copy(
            nodes,
            site.alloc,
            off_table(site.key, words[at]),
            site.state,
        )?;
    }
    Ok(())
}

// An indirect jump, with this third byte above Z.
pub(crate) fn jumping(
    nodes: &mut Moves<'_>,
    site: &Site<'_>,
    bank: TriByte,
) -> Result<(), NodeFault>
    ensures { Adds nodes.old nodes.new result (flow.jumping (targets_above site.now bank) site.now.key.now site.now.state.now) }
{
    let words = targets_at(site, bank)?;
    let added = add_words(nodes, site, &words);
    drop(words);
    added
}

/// Calls and return of an instruction.
#[derive(Drop)]
pub struct Outgoing {
    /// Calls.
    pub calls: Listed<CallSite>,
    /// A return.
    pub exit: Option<Exit>,
}

// No calls and no return, for an instruction that only adds nodes.
pub(crate) fn staying(alloc: Global, added: Result<(), NodeFault>) -> Result<Outgoing, NodeFault>
    ensures { (old new : Moving) (r : Raw) → Adds old new added r → LeadsOn old new result r }
{
    match added {
        Ok(()) => Ok(Outgoing {
            calls: Listed::empty(alloc),
            exit: None,
        }),
        Err(fault) => Err(fault),
    }
}

// Calls of these words that return to the word `back`.
fn sites(alloc: Global, entries: &[u32], back: u32) -> Result<Listed<CallSite>, NodeFault>
    ensures ok { IfOk result (λ sites. sites ≡ map (λ t. flow.site t back) entries.now) }
    ensures err { IfErr result (λ e. e ≡ Memory) }
{
    let mut sites = Listed::empty(alloc);
    for at in 0..entries.len() {
        let entry = entries[at];
        sites.push(CallSite { entry, back })?;
    }
    Ok(sites)
}

// A call of these words that returns to the word `back`.
pub(crate) fn calling(
    alloc: Global,
    key: &NodeKey,
    back: u32,
    entries: &[u32],
) -> Result<Outgoing, NodeFault>
    ensures { (nodes : Moving) → LeadsOn nodes nodes result (flow.calling key.now back entries.now) }
{
    match key.sp {
        SpForm::Closed(_) => {
            let calls = sites(alloc, entries, back)?;
            Ok(Outgoing { calls, exit: None })
        }
        SpForm::Open(_, _) => Err(NodeFault::UntrackedSp(key.pc)),
    }
}

// An indirect call, with this third byte above Z.
pub(crate) fn indirect_call(site: &Site<'_>, bank: TriByte) -> Result<Outgoing, NodeFault>
    ensures { (nodes : Moving) → LeadsOn nodes nodes result (flow.indirect_call site.now.device (targets_above site.now bank) site.now.key.now) }
{
    let entries = targets_at(site, bank)?;
    let back = further(site.device, site.key, 1);
    let outside = calling(site.alloc, site.key, back, &entries);
    drop(entries);
    outside
}

// A return, if the stack pointer is whole.
pub(crate) fn returning(site: &Site<'_>, exit: Exit) -> Result<Outgoing, NodeFault>
    ensures { (nodes : Moving) → LeadsOn nodes nodes result (flow.return_row (site_of site.now) exit) }
{
    let (pc, kind) = (site.key.pc, site.key.inst.kind);
    match site.key.sp {
        SpForm::Closed(offset) => match kind {
            Kind::Call | Kind::Vector(_) if offset == 0 => Ok(Outgoing {
                calls: Listed::empty(site.alloc),
                exit: Some(exit),
            }),
            _ => Err(NodeFault::UntrackedSp(pc)),
        },
        SpForm::Open(_, _) => Err(NodeFault::UntrackedSp(pc)),
    }
}

// `rcall`, which makes room in a compiler's small frame.
pub(crate) fn relative_call(
    nodes: &mut Moves<'_>,
    site: &Site<'_>,
    scratch: bool,
    target: u32,
) -> Result<Outgoing, NodeFault>
    ensures { LeadsOn nodes.old nodes.new result (flow.relative_call scratch (site_of site.now) target) }
{
    if scratch {
        staying(site.alloc, room_row(nodes, site, target))
    } else {
        calling(
            site.alloc,
            site.key,
            further(site.device, site.key, 1),
            &[target],
        )
    }
}
