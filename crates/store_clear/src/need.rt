//! A node's condition on its slots for being clear.

ghost use Rattle.std.specs.Prelude.{◌≡◌, ◌≤◌, ◌&&◌, not, ℕ, Bool, Some};
ghost use Rattle.avr_model.specs.Assumptions as assumed;
ghost use Rattle.avr_model.specs.Bits.{all_below};
ghost use Rattle.avr_model.specs.Devices.{device_of, size_of};
ghost use Rattle.avr_model.specs.Sites.{instruction_at};
ghost use Rattle.avr_model.specs.Step as steps;
ghost use Rattle.clear_laws.specs.Clear.{stored_bits, is_guarded, is_flagged_address, is_address_harmless, is_reach_harmless, is_aim_harmless, permits_pair, target_bank, is_target_listed, is_bank_listed, are_targets_listed, is_transfer_listed, calls_cut, may_move, is_clear_by, is_slot_harmless};
ghost use Rattle.clear_laws.specs.Needs.{meets};
ghost use Rattle.family_edges.specs.Tasks.{task_of};
ghost use Rattle.store_clear.specs.Stores.{task_in, store_of};
ghost use Rattle.node_keys.specs.Keys.{offset_of};

use crate::aims::aim;
use crate::calls::calls_cut;
use crate::guards::Guard;
use crate::moving::may_move;
use crate::numbers::are_addresses_harmless;
use crate::store::GivenStore;
use abs_state::AbsState;
use avr_model::device::EIND;
use avr_model::instruction::{Base, Instr, LowRegister};
use bit_domain::TriByte;
use clear_laws::slots::Condition;
use clear_laws::stores::{Aim, Reach, Span};
use family_edges::Task;
use flash_image::Flash;
use local_reads::members::permits_number;
use local_reads::pointers::has;
use local_rows::registers::{pair, value_at};
use local_rows::transfer::base_register;
use node_keys::{NodeKey, may_enable_barred};
use vector_table::{is_core, is_protected};

// Whether this is `ijmp`, `icall`, `eijmp` or `eicall`.
pub(crate) fn is_indirect(instr: &Instr) -> bool
    ensures { result ≡ steps.is_indirect instr.now }
{
    match instr {
        Instr::Ijmp => true,
        Instr::Icall => true,
        Instr::Eijmp => true,
        Instr::Eicall => true,
        _ => false,
    }
}

// The third byte of an indirect transfer's target: EIND, or 0.
pub(crate) fn target_bank(state: &AbsState, instr: &Instr) -> TriByte
    ensures { result ≡ target_bank state.now instr.now }
{
    match instr {
        Instr::Eijmp => value_at(&state.registers, EIND).bits,
        Instr::Eicall => value_at(&state.registers, EIND).bits,
        _ => TriByte::of(0),
    }
}

// Whether a list has this data address.
fn lists(items: &[u16], item: u16) -> bool
    ensures { result ≡ assumed.lists items.now item }
{
    items.iter().any(|other| *other == item)
}

// Whether a list has this word address.
fn lists_word(items: &[u32], item: u32) -> bool
    ensures { result ≡ assumed.lists items.now item }
{
    items.iter().any(|other| *other == item)
}

// Whether writing this address at this word may be flagged as protected.
pub(crate) fn is_flagged_address(store: &GivenStore<'_, '_>, address: u16) -> bool
    ensures { result ≡ is_flagged_address (task_in store.now) (store_of store.now) address }
{
    let device = store.flash.device();
    match store.guard {
        Guard::Nothing => false,
        Guard::Barred(value) => {
            is_core(device, address)
                || may_enable_barred(device, store.assumptions, address, &value)
        }
        Guard::Unlisted(listed) => is_protected(device, address) && !lists(listed, address),
    }
}

// Whether the address is no pushed byte's and a write of it isn't flagged, if the stack takes at most this many bytes.
pub(crate) fn is_address_harmless(store: &GivenStore<'_, '_>, bound: u16, address: u16) -> bool
    requires { bound ≤ size_of (device_of store.now.flash.now) }
    ensures { result ≡ is_address_harmless (task_in store.now) bound (store_of store.now) address }
{
    let device = store.flash.device();
    let (below, ramend) = (device.io_end(), device.ramend());
    (below < address && address <= ramend - bound)
        || ramend < address
        || (address <= below && !is_flagged_address(store, address))
}

// Whether a store to one of these addresses writes neither a live byte nor a flagged address.
fn is_reach_harmless(store: &GivenStore<'_, '_>, bound: u16, reach: Reach) -> bool
    requires { bound ≤ size_of (device_of store.now.flash.now) }
    ensures { result ≡ is_reach_harmless (task_in store.now) bound (store_of store.now) reach }
{
    match reach {
        Reach::Nothing => true,
        Reach::Within(Span { first, last }) => {
            let device = store.flash.device();
            let (below, ramend) = (device.io_end(), device.ramend());
            let flagged = is_flagged_address(store, first);
            (below < first && last <= ramend - bound)
                || ramend < first
                || (first == last && first <= below && !flagged)
        }
        Reach::Beyond => false,
    }
}

// The condition of a store.
fn condition_of_aim(
    store: &GivenStore<'_, '_>,
    bound: u16,
    key: &NodeKey,
    aim: Option<Aim>,
) -> Condition
    requires { bound ≤ size_of (device_of store.now.flash.now) }
    ensures { (held : ℕ → Bool) → is_aim_harmless (task_in store.now) bound (store_of store.now) (is_slot_harmless (offset_of key.now.sp) held) aim ≡ meets result held }
{
    let Some(aim) = aim else {
        return Condition::Always;
    };
    if is_reach_harmless(store, bound, aim.reach) || are_addresses_harmless(store, bound) {
        return Condition::Always;
    }
    match aim.slot {
        Some(slot) if slot < key.offset() => Condition::SlotFree(slot),
        _ => Condition::Never,
    }
}

// Whether the registers may hold this number: by their bits alone, and if pairs are followed also by their ranges and interval.
fn permits_pair(state: &AbsState, r: LowRegister, number: u16) -> bool
    ensures { result ≡ permits_pair state.now r number }
{
    match state.facts.get() {
        Some(_) => permits_number(state, r, number),
        None => {
            let (low, high) = pair(state, r);
            has(low.bits, (number % 256) as u8) && has(high.bits, (number / 256) as u8)
        }
    }
}

// Whether the target with this third byte and this number of Z is listed, if the number is permitted.
fn is_target_listed(flash: &Flash, state: &AbsState, listed: &[u32], third: u8, z: u16) -> bool
    ensures { result ≡ is_target_listed (device_of flash.now) state.now listed.now third z }
{
    let permitted = permits_pair(state, base_register(Base::Z), z);
    let word = 65536 * u32::from(third) + u32::from(z);
    !permitted || lists_word(listed, flash.device().wrap(word))
}

// Whether all possible targets with this third byte are listed.
fn are_words_listed(flash: &Flash, state: &AbsState, listed: &[u32], third: u8) -> bool
    ensures { result ≡ all_below 65536 (is_target_listed (device_of flash.now) state.now listed.now third) }
{
    for z in 0..65536u32 {
        if !is_target_listed(flash, state, listed, third, z as u16) {
            return false;
        }
    }
    true
}

// The same, if these bits permit the third byte.
fn is_bank_listed(flash: &Flash, state: &AbsState, bank: TriByte, listed: &[u32], third: u8) -> bool
    ensures { result ≡ is_bank_listed (device_of flash.now) state.now bank listed.now third }
{
    !has(bank, third) || are_words_listed(flash, state, listed, third)
}

// Whether all possible targets are listed.
fn are_targets_listed(flash: &Flash, state: &AbsState, bank: TriByte, listed: &[u32]) -> bool
    ensures { result ≡ are_targets_listed (device_of flash.now) state.now bank (Some listed.now) }
{
    for third in 0..flash.device().eind_most() + 1 {
        if !is_bank_listed(flash, state, bank, listed, third) {
            return false;
        }
    }
    true
}

// Whether an indirect transfer goes to listed words only.
fn is_transfer_listed(task: &Task<'_>, pc: u32, state: &AbsState, instr: &Instr) -> bool
    ensures { result ≡ is_transfer_listed (task_of task.now) pc state.now instr.now }
{
    if !is_indirect(instr) {
        return true;
    }
    match task.assumptions.jumps(pc) {
        None => true,
        Some(listed) => are_targets_listed(task.flash, state, target_bank(state, instr), listed),
    }
}

// Whether an instruction goes to listed words only, calls no word with a `recur` line, and doesn't set a moving bit.
fn stays(task: &Task<'_>, key: &NodeKey, state: &AbsState, instr: &Instr) -> bool
    ensures { result ≡ (is_transfer_listed (task_of task.now) key.now.pc state.now instr.now && (not (calls_cut (task_of task.now) key.now state.now instr.now) && not (may_move (task_of task.now) key.now state.now instr.now))) }
{
    is_transfer_listed(task, key.pc, state, instr)
        && !calls_cut(task, key, state, instr)
        && !may_move(task, key, state, instr)
}

// A node's condition for being clear, if the stack takes at most this many bytes.
pub(crate) fn condition_by(
    task: &Task<'_>,
    bound: u16,
    key: &NodeKey,
    state: &AbsState,
) -> Condition
    requires { bound ≤ size_of (device_of task.now.flash.now) }
    ensures { (held : ℕ → Bool) → is_clear_by (task_of task.now) bound (record { key = key.now; state = state.now }) held (instruction_at task.now.flash.now key.now.pc) ≡ meets result held }
{
    match task.flash.instruction(key.pc) {
        None => Condition::Always,
        Some(instr) => {
            let aim = aim(task.flash.device(), key, state, &instr);
            if stays(task, key, state, &instr) {
                let store = GivenStore {
                    flash: task.flash,
                    assumptions: task.assumptions,
                    pc: key.pc,
                    state,
                    instr: &instr,
                    guard: Guard::of(task, key.pc, state, &instr),
                };
                condition_of_aim(&store, bound, key, aim)
            } else {
                Condition::Never
            }
        }
    }
}
