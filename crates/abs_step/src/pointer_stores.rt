//! Stores through a pointer.

ghost use Rattle.std.specs.Prelude.{◌≡◌, false, length, IfOk, IfErr};
ghost use Rattle.node_keys.specs.Keys.{offset_of};
ghost use Rattle.local_rules.specs.declared.local.NodeFault.TheVariants.{Memory};
ghost use Rattle.local_rules.specs.Raw.{nowhere};
ghost use Rattle.local_rules.specs.Writes.{listed_writes, written_at};
ghost use Rattle.local_rules.specs.Writes as writes;
ghost use Rattle.abs_step.specs.Adding.{Adds, GathersToo, first_of};
ghost use Rattle.abs_step.specs.Sites.{write_of, reached, wakes, woken_by, unfixed, stored_by};

use crate::moves::Moves;
use crate::site::{ByteWrite, Site};
use crate::stores::written_at;
use crate::successors::{add_copy, next};
use abs_state::AbsState;
use avr_model::instruction::{LowRegister, Register};
use local_reads::pointers::{point, reaches};
use local_reads::wakes::{PointerByte, may_enable_other};
use local_rows::registers::value;
use local_rules::SpView;
use local_rules::local::NodeFault;
use node_keys::{NodeKey, widened};
use std::alloc::Global;

/// An address in registers `r` and `r + 1`, plus a number.
#[derive(Clone, Copy)]
pub struct Indirect {
    /// The first register.
    pub r: LowRegister,
    /// The number.
    pub up: u16,
}

/// The fault that counts, of the one so far and another.
pub fn first(fault: Option<NodeFault>, found: NodeFault) -> NodeFault
    ensures { result ≡ first_of fault found }
{
    match fault {
        Some(fault) => fault.lesser(found),
        None => found,
    }
}

// Stores the byte at one more address, also if a fault was found before.
fn stored_too(
    nodes: &mut Moves<'_>,
    alloc: Global,
    write: &ByteWrite<'_>,
    address: u16,
    fault: Option<NodeFault>,
) -> Result<Option<NodeFault>, NodeFault>
    ensures ok { IfOk result (GathersToo nodes.old nodes.new fault (written_at (write_of write.now) false address)) }
    ensures err { IfErr result (λ e. e ≡ Memory) }
{
    match written_at(nodes, alloc, write, false, address) {
        Ok(()) => Ok(fault),
        Err(found) => {
            let cause = found.cause();
            if cause == 0 {
                return Err(NodeFault::Memory);
            }
            Ok(Some(first(fault, found)))
        }
    }
}

// At an unfixed site: one successor in which nothing known changes, and those of each listed address that is possible.
fn listed_writes(
    nodes: &mut Moves<'_>,
    site: &Site<'_>,
    write: &ByteWrite<'_>,
    to: &Indirect,
    all: &[u16],
) -> Result<(), NodeFault>
    ensures { Adds nodes.old nodes.new result (listed_writes (reached site.now to.now all.now) (write_of write.now)) }
{
    add_copy(nodes, site.alloc, write.key, write.state)?;
    let mut fault: Option<NodeFault> = None;
    for at in 0..all.len() {
        if reaches(site.state, to.r, to.up, all[at]) {
            fault = stored_too(nodes, site.alloc, write, all[at], fault)?;
        }
    }
    match fault {
        Some(fault) => Err(fault),
        None => Ok(()),
    }
}

// Whether the pointer is a slot of the running frame.
fn is_own_slot(slot: Option<u16>, offset: u16) -> bool
    ensures { result ≡ writes.is_own_slot slot offset }
{
    match slot {
        Some(slot) => slot < offset,
        None => false,
    }
}

// Whether the byte may reach the enable bit of a vector that isn't barred.
#[tactic(auto, unfolding(local_rules::specs::Writes::may_wake))]
fn may_wake(site: &Site<'_>, write: &ByteWrite<'_>, to: &Indirect) -> bool
    ensures { result ≡ wakes site.now to.now (write_of write.now) }
{
    if !site.assumptions.admits_enables(write.device, write.pc) {
        return false;
    }
    let view = SpView::of(write.device, &write.key);
    let slot = point(view, site.state, to.r, to.up).frame;
    if is_own_slot(slot, write.key.offset()) {
        return false;
    }
    let byte = PointerByte {
        device: write.device,
        assumptions: site.assumptions,
        state: site.state,
        r: to.r,
        up: to.up,
        bits: write.value.bits,
    };
    may_enable_other(&byte)
}

// If the byte may reach an enable bit, adds a successor in which each vector that isn't barred may be enabled.
fn waking(
    nodes: &mut Moves<'_>,
    site: &Site<'_>,
    write: &ByteWrite<'_>,
    to: &Indirect,
) -> Result<(), NodeFault>
    ensures { Adds nodes.old nodes.new result (woken_by site.now to.now (write_of write.now) nowhere) }
{
    if !may_wake(site, write, to) {
        return Ok(());
    }
    let masks = widened(write.device, site.assumptions, write.key.masks);
    let key = NodeKey { masks, ..write.key };
    add_copy(nodes, site.alloc, key, write.state)
}

// At an unfixed site: nothing known changes, a listed address is written, or an enable bit may be set.
fn unfixed_write(
    nodes: &mut Moves<'_>,
    site: &Site<'_>,
    write: &ByteWrite<'_>,
    to: &Indirect,
) -> Result<(), NodeFault>
    ensures { Adds nodes.old nodes.new result (unfixed site.now to.now (write_of write.now)) }
{
    let addresses = site.assumptions.stores(write.pc);
    listed_writes(nodes, site, write, to, addresses)?;
    waking(nodes, site, write, to)
}

/// Stores register `r` at an address in registers, as they are before the instruction.
pub fn pointer_write(
    nodes: &mut Moves<'_>,
    site: &Site<'_>,
    to: Indirect,
    r: Register,
    after: &AbsState,
) -> Result<(), NodeFault>
    requires { length after.now.slots ≡ offset_of site.now.key.now.sp }
    ensures { Adds nodes.old nodes.new result (stored_by site.now to after.now r) }
{
    let write = ByteWrite {
        device: site.device,
        pc: site.key.pc,
        key: next(site.device, site.key),
        state: after,
        value: value(site.state, r),
    };
    if site.flash.is_fixed_site(site.assumptions, site.key.pc) {
        match point(site.view(), site.state, to.r, to.up).constant {
            Some(address) => written_at(nodes, site.alloc, &write, false, address),
            None => Err(NodeFault::UnknownPointer(site.key.pc)),
        }
    } else {
        unfixed_write(nodes, site, &write, &to)
    }
}
