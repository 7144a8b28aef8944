//! Reads and writes through pairs of registers.

ghost use Rattle.std.specs.Prelude.{◌≡◌};
ghost use Rattle.bit_domain.specs.TriByte as bytes;
ghost use Rattle.local_rules.specs.Reads.{read_number, flash_value};
ghost use Rattle.local_rules.specs.Reads as reads;
ghost use Rattle.local_rules.specs.Writes as writes;
ghost use Rattle.local_rules.specs.Local as rows;

use crate::reads::{read_at, slot_value};
use abs_state::{AbsByte, AbsState};
use avr_model::device::Device;
use avr_model::instruction::{LowRegister, Pointer};
use bit_domain::TriByte;
use flash_image::Flash;
use local_rows::high_bytes::pair_tags;
use local_rows::registers::pair;
use local_rules::{Pointed, SpView};
use node_keys::NodeKey;
use sp_domain::{Tag, frame};

/// The change of a pointer before the access, modulo 65,536: `-P` subtracts one.
pub fn step_before(pointer: Pointer) -> u16
    ensures { result ≡ rows.step_before pointer }
{
    match pointer {
        Pointer::MinusZ | Pointer::MinusY | Pointer::MinusX => 65535,
        Pointer::ZPlus | Pointer::YPlus | Pointer::X | Pointer::XPlus => 0,
    }
}

/// The number in registers `r` and `r + 1`, if all their bits are known.
pub fn pair_constant(state: &AbsState, r: LowRegister) -> Option<u16>
    ensures { result ≡ reads.pair_constant state.now r }
{
    let (low, high) = pair(state, r);
    match (low.bits.constant(), high.bits.constant()) {
        (Some(low), Some(high)) => Some(u16::from(low) + 256 * u16::from(high)),
        _ => None,
    }
}

/// The address by registers `r` and `r + 1` plus a number, modulo 65,536.
pub fn point(view: SpView, state: &AbsState, r: LowRegister, up: u16) -> Pointed
    ensures { result ≡ reads.pointed view state.now r up }
{
    let (low, high) = pair_tags(view, state, r);
    let constant = match pair_constant(state, r) {
        Some(number) => Some(number.wrapping_add(up)),
        None => None,
    };
    let frame = match frame(low, high) {
        Some(below) => Some(below.wrapping_sub(up)),
        None => None,
    };
    Pointed { constant, frame }
}

// The value at a known address, without a tag: the bits of a register or of I/O, and bits and range of a slot.
fn read_number(device: Device, may: bool, key: &NodeKey, state: &AbsState, address: u16) -> AbsByte
    ensures { result ≡ read_number device may key.now state.now address }
{
    let read = read_at(device, may, key, state, address);
    if address <= device.io_end() {
        AbsByte::untagged(read.bits)
    } else {
        AbsByte {
            tag: Tag::None,
            ..read
        }
    }
}

/// The value of a read through a pointer. None if it is impossible. A missing slot is read by the number alone. `may` says whether the
/// key has what may be enabled.
pub fn read_pointed(
    device: Device,
    may: bool,
    key: &NodeKey,
    state: &AbsState,
    pointed: Pointed,
) -> Option<AbsByte>
    ensures { result ≡ reads.read_pointed device may key.now state.now pointed }
{
    let number = match pointed.constant {
        Some(address) => Some(read_number(device, may, key, state, address)),
        None => None,
    };
    match pointed.frame {
        Some(d) if d < state.slots.len() => {
            let value = slot_value(state, d);
            match number {
                Some(number) => {
                    let tag = value.tag;
                    AbsByte { tag, ..number }.meet(value)
                }
                None => Some(value),
            }
        }
        _ => match number {
            Some(number) => Some(number),
            None => Some(AbsByte::unknown()),
        },
    }
}

/// The byte of flash at a known address.
#[tactic(auto, using(avr_model::proofs::AllLaws::devices_are_alike))]
pub fn flash_value(flash: &Flash, z: Option<u32>) -> AbsByte
    ensures { result ≡ flash_value flash.now z }
{
    let end = 2 * flash.device().words();
    match z {
        Some(z) if z < end => AbsByte::known(flash.byte(z)),
        _ => AbsByte::unknown(),
    }
}

/// Whether the byte is a member of these bits.
pub fn has(bits: TriByte, byte: u8) -> bool
    ensures { result ≡ bytes.has bits byte }
{
    bits.has(byte)
}

/// Whether registers `r` and `r + 1` plus a number may be the address, by their bits.
pub fn reaches(state: &AbsState, r: LowRegister, up: u16, address: u16) -> bool
    ensures { result ≡ writes.reaches state.now r up address }
{
    let pointer = address.wrapping_sub(up);
    let (low, high) = pair(state, r);
    has(low.bits, (pointer % 256) as u8) && has(high.bits, (pointer / 256) as u8)
}
