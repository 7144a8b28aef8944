//! Pushes and pops, and calls that make room.

ghost use Rattle.std.specs.Prelude.{◌≡◌, ◌<◌, ◌||◌, ◌++◌, ◌∷◌, [], length, IfOk, IfErr};
ghost use Rattle.local_rules.specs.declared.local.NodeFault.TheVariants.{Memory};
ghost use Rattle.avr_model.specs.Assumptions.{has_scratch};
ghost use Rattle.local_rules.specs.Flow as flow;
ghost use Rattle.abs_step.specs.Adding.{Adds};
ghost use Rattle.abs_step.specs.Sites.{site_of};

use crate::moves::Moves;
use crate::site::Site;
use crate::stores::with_slots;
use crate::successors::{at_word, copied, next};
use abs_state::{AbsByte, AbsState};
use avr_model::instruction::Register;
use local_reads::reads::slot_value;
use local_rows::registers::{set, value};
use local_rules::local::NodeFault;
use node_keys::SpForm;
use sp_domain::Slot;
use std::alloc::Global;

// The state with one more slot.
fn with_slot(alloc: Global, state: &AbsState, slot: Slot<AbsByte>) -> Result<AbsState, NodeFault>
    requires { length state.now.slots < 65535 }
    ensures ok { IfOk result (λ s. s ≡ record state.now { slots = state.now.slots ++ slot ∷ [] }) }
    ensures err { IfErr result (λ e. e ≡ Memory) }
{
    let mut after = copied(alloc, state)?;
    after.slots.push(slot)?;
    Ok(after)
}

/// Whether the byte of a `push` is no one's to keep: the words around it make a compiler's small frame, or it has a `scratch` line.
pub fn is_free(site: &Site<'_>, scratch: bool) -> bool
    ensures { result ≡ (scratch || has_scratch site.now.assumptions.now site.now.key.now.pc) }
{
    scratch || site.assumptions.has_scratch(site.key.pc)
}

/// `push`: register `r` goes to a new slot. A scratch push makes a free slot, any other a guarded one.
pub fn push_row(
    nodes: &mut Moves<'_>,
    site: &Site<'_>,
    scratch: bool,
    r: Register,
) -> Result<(), NodeFault>
    ensures { Adds nodes.old nodes.new result (flow.push_row scratch (site_of site.now) r) }
{
    match site.key.sp {
        SpForm::Closed(offset) => {
            if offset >= site.device.size() {
                return Err(NodeFault::TooDeep(site.key.pc, u32::from(offset) + 1));
            }
            let slot = if scratch {
                Slot::Free
            } else {
                Slot::Guarded(value(site.state, r))
            };
            let after = with_slot(site.alloc, site.state, slot)?;
            let mut key = next(site.device, site.key);
            key.sp = SpForm::Closed(offset + 1);
            nodes.add(key, after)
        }
        SpForm::Open(_, _) => Err(NodeFault::UntrackedSp(site.key.pc)),
    }
}

/// `pop`: register `d` gets the byte of the last slot, which is removed.
pub fn pop_row(nodes: &mut Moves<'_>, site: &Site<'_>, d: Register) -> Result<(), NodeFault>
    ensures { Adds nodes.old nodes.new result (flow.pop_row (site_of site.now) d) }
{
    match site.key.sp {
        SpForm::Closed(offset) => {
            if offset == 0 {
                return Err(NodeFault::UntrackedSp(site.key.pc));
            }
            let last = offset - 1;
            let mut after = with_slots(site.alloc, site.state, last)?;
            after.registers = set(&site.state.registers, d, slot_value(site.state, last));
            let mut key = next(site.device, site.key);
            key.sp = SpForm::Closed(last);
            nodes.add(key, after)
        }
        SpForm::Open(_, _) => Err(NodeFault::UntrackedSp(site.key.pc)),
    }
}

/// A call of the next word: it makes room for a return address, and stays in its frame.
pub fn room_row(nodes: &mut Moves<'_>, site: &Site<'_>, target: u32) -> Result<(), NodeFault>
    ensures { Adds nodes.old nodes.new result (flow.room_row (site_of site.now) target) }
{
    match site.key.sp {
        SpForm::Closed(offset) => {
            let back = site.device.back();
            let deep = u32::from(offset) + u32::from(back);
            if deep > u32::from(site.device.size()) {
                return Err(NodeFault::TooDeep(site.key.pc, deep));
            }
            let room = offset + u16::from(back);
            let after = with_slots(site.alloc, site.state, room)?;
            let mut key = at_word(site.key, target);
            key.sp = SpForm::Closed(room);
            nodes.add(key, after)
        }
        SpForm::Open(_, _) => Err(NodeFault::UntrackedSp(site.key.pc)),
    }
}
