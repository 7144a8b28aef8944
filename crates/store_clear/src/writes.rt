//! The possible causes of a flagged step.

ghost use Rattle.std.specs.Prelude.{◌≡◌, ◌≤◌};
ghost use Rattle.avr_model.specs.Devices.{device_of, size_of};
ghost use Rattle.clear_laws.specs.Aims.{may_write};
ghost use Rattle.family_edges.specs.Tasks.{task_of};
ghost use Rattle.clear_laws.specs.Causes.{may_write_protected, may_write_some_protected, may_write_stack, may_leave, may_write_live};
ghost use Rattle.store_clear.specs.Stores.{task_in, store_of};

use crate::calls::calls_cut;
use crate::moving::may_move;
use crate::need::{is_flagged_address, is_indirect};
use crate::store::GivenStore;
use abs_state::AbsState;
use avr_model::instruction::Instr;
use family_edges::Task;
use flash_image::Flash;
use local_reads::members::permits_number;
use local_reads::pointers::step_before;
use local_rows::transfer::{base_register, pointer_register};
use node_keys::NodeKey;

// Whether a store's byte may go to this address.
pub(crate) fn may_write(state: &AbsState, instr: &Instr, address: u16) -> bool
    ensures { result ≡ may_write state.now instr.now address }
{
    match instr {
        Instr::Std(base, q, _) => {
            let number = address.wrapping_sub(q.get());
            permits_number(state, base_register(*base), number)
        }
        Instr::St(pointer, _) => {
            let number = address.wrapping_sub(step_before(*pointer));
            permits_number(state, pointer_register(*pointer), number)
        }
        Instr::Sts(only, _) => *only == address,
        _ => false,
    }
}

// Whether the byte of a store may go to this data address, and the write may be flagged as one of a protected address.
pub(crate) fn may_write_protected(store: &GivenStore<'_, '_>, address: u16) -> bool
    ensures { result ≡ may_write_protected (task_in store.now) (store_of store.now) address }
{
    is_flagged_address(store, address) && may_write(store.state, store.instr, address)
}

// Whether some data address is so.
fn may_write_some_protected(store: &GivenStore<'_, '_>) -> bool
    ensures { result ≡ may_write_some_protected (task_in store.now) (store_of store.now) }
{
    for address in 0..store.flash.device().guarded_end() + 1 {
        if may_write_protected(store, address) {
            return true;
        }
    }
    false
}

// Whether a store may reach the stack, by the bound.
fn may_write_stack(flash: &Flash, bound: u16, state: &AbsState, instr: &Instr) -> bool
    requires { bound ≤ size_of (device_of flash.now) }
    ensures { result ≡ may_write_stack (device_of flash.now) bound state.now instr.now }
{
    let last = flash.device().ramend();
    for depth in 0..bound {
        if may_write(state, instr, last - depth) {
            return true;
        }
    }
    false
}

// Whether the instruction at a node is an indirect transfer, calls a word with a `recur` line, or may set a moving bit.
fn may_leave(task: &Task<'_>, key: &NodeKey, state: &AbsState, instr: &Instr) -> bool
    ensures { result ≡ may_leave (task_of task.now) key.now (record { pc = key.now.pc; state = state.now; instr = instr.now }) }
{
    is_indirect(instr) || calls_cut(task, key, state, instr) || may_move(task, key, state, instr)
}

// Whether a store at this node that isn't harmless may write a pushed byte, if the stack takes at most this many bytes: it may reach the
// stack, or pairs aren't followed and it has no other cause.
pub(crate) fn may_write_live(
    task: &Task<'_>,
    bound: u16,
    key: &NodeKey,
    store: &GivenStore<'_, '_>,
) -> bool
    requires small { bound ≤ size_of (device_of task.now.flash.now) }
    requires same { task_in store.now ≡ task_of task.now }
    ensures { result ≡ may_write_live (task_of task.now) bound key.now (store_of store.now) }
{
    let (state, instr) = (store.state, store.instr);
    may_write_stack(task.flash, bound, state, instr)
        || (!state.facts.is_followed()
            && !(may_leave(task, key, state, instr) || may_write_some_protected(store)))
}
