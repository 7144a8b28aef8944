//! The value of a byte read from data space at a known address.

ghost use Rattle.std.specs.Prelude.{◌≡◌, ◌&&◌, true, IfSome};
ghost use Rattle.std.specs.Int.{from_bool};
ghost use Rattle.avr_model.specs.Vectors.{is_vector, is_moving};
ghost use Rattle.sp_domain.specs.Slots.{slot_at};
ghost use Rattle.local_rules.specs.Reads.{enable_read, io_tri, free_tri, io_bits, kept_bits, value_of, slot_read, read_at};

use crate::stack_pointer::sp_bytes;
use abs_state::{AbsByte, AbsState};
use avr_model::device::{Device, Special};
use bit_domain::{Tri, TriByte};
use local_rows::bits::tri_of;
use local_rows::registers::value_at;
use local_rows::status::sreg_value;
use node_keys::{Kind, NodeKey};
use sp_domain::Slot;
use vector_table::{Masks, enable_of, held_of, is_moving};

// An enable bit by the key. If `may`, the key has what may be enabled, and the bit is 0 or unknown.
fn enable_read(may: bool, on: bool) -> Tri
    ensures { result ≡ enable_read may (from_bool on) }
{
    if !may {
        return tri_of(on);
    }
    if on { Tri::Any } else { Tri::Zero }
}

// One bit of an I/O address, of a vector's enable bit if there is one: an enable bit comes from the key, other bits are as given.
fn io_tri(free: Tri, may: bool, device: Device, vector: Option<u8>, masks: Masks) -> Tri
    requires { IfSome vector (λ v. is_vector device v ≡ true) }
    ensures { result ≡ io_tri free may vector masks }
{
    match vector {
        Some(vector) => enable_read(may, masks.is_on(device, vector)),
        None => free,
    }
}

// A bit that no key knows: a moving bit is read as 0 if `may`, every other is unknown.
fn free_tri(device: Device, may: bool, address: u16, bit: u8) -> Tri
    ensures { result ≡ free_tri (may && is_moving device address bit) }
{
    if may && is_moving(device, address, bit) {
        Tri::Zero
    } else {
        Tri::Any
    }
}

// What a read of an I/O address gives.
fn io_bits(device: Device, may: bool, masks: Masks, address: u16) -> TriByte
    ensures { result ≡ io_bits device may masks address }
{
    let mut bits = TriByte::any();
    for bit in 0..8u8 {
        let vector = held_of(device, address, bit);
        let free = free_tri(device, may, address, bit);
        bits = bits.with(bit, io_tri(free, may, device, vector, masks));
    }
    bits
}

/// The byte of an I/O address of which `sbi` and `cbi` change one bit: each bit that enables a vector is that of the key, every other bit
/// is 0.
pub fn kept_bits(device: Device, masks: Masks, address: u16) -> TriByte
    ensures { result ≡ kept_bits device masks address }
{
    let mut bits = TriByte::any();
    for bit in 0..8u8 {
        let vector = enable_of(device, address, bit);
        bits = bits.with(bit, io_tri(Tri::Zero, false, device, vector, masks));
    }
    bits
}

/// The value of slot `d`; unknown if there is no such slot.
pub fn slot_value(state: &AbsState, d: u16) -> AbsByte
    ensures { result ≡ value_of (slot_at state.now.slots d) }
{
    match state.slots.at(d) {
        Some(Slot::Guarded(value)) => value,
        Some(Slot::Free) => AbsByte::unknown(),
        None => AbsByte::unknown(),
    }
}

// The value of a byte above I/O: a slot of the root's frame, whose base is known; unknown in other frames.
fn slot_read(device: Device, kind: Kind, state: &AbsState, address: u16) -> AbsByte
    ensures { result ≡ slot_read device kind state.now address }
{
    let base = device.ramend();
    match kind {
        Kind::Root if address <= base => slot_value(state, base - address),
        _ => AbsByte::unknown(),
    }
}

/// The value of a data address. `may` says whether the key has what may be enabled.
#[tactic(auto, unfolding(local_rules::specs::Reads::read_at))]
pub fn read_at(device: Device, may: bool, key: &NodeKey, state: &AbsState, address: u16) -> AbsByte
    ensures { result ≡ read_at device may key.now state.now address }
{
    if let Some(r) = device.register_at(address) {
        return value_at(&state.registers, r);
    }
    match device.special(address) {
        Some(Special::Spl) => sp_bytes(device, key.inst.kind, key.sp).0,
        Some(Special::Sph) => sp_bytes(device, key.inst.kind, key.sp).1,
        Some(Special::Sreg) => sreg_value(key, state),
        None if address <= device.io_end() => {
            AbsByte::untagged(io_bits(device, may, key.masks, address))
        }
        None => slot_read(device, key.inst.kind, state, address),
    }
}
