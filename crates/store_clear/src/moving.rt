//! Whether an instruction may set a bit that moves vectors.

ghost use Rattle.std.specs.Prelude.{◌≡◌};
ghost use Rattle.std.specs.List.{list_any};
ghost use Rattle.avr_model.specs.Vectors.{moving_of};
ghost use Rattle.family_edges.specs.Tasks.{task_of};
ghost use Rattle.clear_laws.specs.Clear.{may_reach, written_bits, may_set, may_move};
ghost use Rattle.local_rules.specs.Writes as writes;

use crate::guards::stored_bits;
use crate::writes::may_write;
use abs_state::AbsState;
use avr_model::device::Device;
use avr_model::instruction::Instr;
use avr_model::rows::MovingPlace;
use bit_domain::TriByte;
use family_edges::Task;
use local_reads::flow::port;
use local_reads::pointers::{point, step_before};
use local_rows::registers::bits;
use local_rows::transfer::{base_register, pointer_register};
use local_rules::SpView;
use node_keys::{NodeKey, may_have};

// Whether the slot is one of a running frame with this offset.
fn is_own_slot(slot: Option<u16>, offset: u16) -> bool
    ensures { result ≡ writes.is_own_slot slot offset }
{
    match slot {
        Some(slot) => slot < offset,
        None => false,
    }
}

// Whether the byte of an instruction may go to this address.
fn may_reach(device: Device, key: &NodeKey, state: &AbsState, instr: &Instr, address: u16) -> bool
    ensures { result ≡ may_reach device key.now state.now instr.now address }
{
    match instr {
        Instr::Out(at, _) => port(device, *at) == address,
        Instr::Sts(only, _) => *only == address,
        Instr::Std(base, q, _) => {
            let view = SpView::of(device, key);
            let slot = point(view, state, base_register(*base), q.get()).frame;
            may_write(state, instr, address) && !is_own_slot(slot, key.offset())
        }
        Instr::St(pointer, _) => {
            let up = step_before(*pointer);
            let view = SpView::of(device, key);
            let slot = point(view, state, pointer_register(*pointer), up).frame;
            may_write(state, instr, address) && !is_own_slot(slot, key.offset())
        }
        _ => false,
    }
}

// The bits of its byte.
fn written_bits(state: &AbsState, instr: &Instr) -> TriByte
    ensures { result ≡ written_bits state.now instr.now }
{
    match instr {
        Instr::Out(_, r) | Instr::Sts(_, r) => bits(state, *r),
        _ => stored_bits(state, instr),
    }
}

// Whether an instruction may set a bit of the place.
fn may_set(
    device: Device,
    place: Option<MovingPlace>,
    key: &NodeKey,
    state: &AbsState,
    instr: &Instr,
) -> bool
    ensures { result ≡ may_set (may_reach device key.now state.now instr.now) (written_bits state.now instr.now) place }
{
    match place {
        Some(moving) => {
            may_reach(device, key, state, instr, moving.address)
                && may_have(&written_bits(state, instr), moving.mask)
        }
        None => false,
    }
}

// Whether an instruction may set a moving bit.
fn may_set_some(device: Device, key: &NodeKey, state: &AbsState, instr: &Instr) -> bool
    ensures { result ≡ list_any (may_set (may_reach device key.now state.now instr.now) (written_bits state.now instr.now)) (moving_of device) }
{
    let places = device.moving();
    may_set(device, places[0], key, state, instr) || may_set(device, places[1], key, state, instr)
}

// Whether an instruction may set a moving bit, under a list that reads masks.
pub(crate) fn may_move(task: &Task<'_>, key: &NodeKey, state: &AbsState, instr: &Instr) -> bool
    ensures { result ≡ may_move (task_of task.now) key.now state.now instr.now }
{
    let device = task.flash.device();
    task.assumptions.reads_masks(device) && may_set_some(device, key, state, instr)
}
