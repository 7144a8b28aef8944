//! RAMPZ and EIND: what they hold of a byte, and RAMPZ in `elpm`.

ghost use Rattle.std.specs.Prelude.{◌≡◌, ◌<◌};
ghost use Rattle.avr_model.specs.State.{REGISTERS};
ghost use Rattle.local_rules.specs.Banks.{bank_bits, own_tag, stored_value, extended_constant, next_bank, joined_bank, stepped_bank};
ghost use Rattle.local_rules.specs.Reads as reads;

use crate::members::permits_bytes;
use crate::pointers::pair_constant;
use abs_state::{AbsByte, AbsState};
use avr_model::device::{Device, RAMPZ};
use avr_model::instruction::Base;
use bit_domain::TriByte;
use local_rows::registers::value_at;
use local_rows::transfer::base_register;
use sp_domain::Tag;

// The bits, with those that RAMPZ or EIND lacks known 0.
fn bank_bits(device: Device, r: u16, bits: TriByte) -> TriByte
    ensures { result ≡ bank_bits device r bits }
{
    let most = device.bank_most(r);
    TriByte::new(bits.known | !most, bits.value & most)
}

// The tag, if it is that of the register's own entry. Another one need not hold, since bits are cut.
fn own_tag(r: u16, tag: Tag) -> Tag
    requires { r < REGISTERS }
    ensures { result ≡ own_tag r tag }
{
    if tag == Tag::Entry(r as u8) {
        tag
    } else {
        Tag::None
    }
}

/// What a register holds of a byte that is written by its address.
pub fn stored_value(device: Device, r: u16, value: AbsByte) -> AbsByte
    requires { r < REGISTERS }
    ensures { result ≡ stored_value device r value }
{
    if r < RAMPZ {
        AbsByte::of_bits(value.tag, value.bits)
    } else {
        AbsByte::of_bits(own_tag(r, value.tag), bank_bits(device, r, value.bits))
    }
}

/// The number in Z, if it is known, as a byte address.
pub fn z_constant(state: &AbsState) -> Option<u32>
    ensures { result ≡ reads.pair_constant state.now 30 }
{
    match pair_constant(state, base_register(Base::Z)) {
        Some(z) => Some(u32::from(z)),
        None => None,
    }
}

/// The byte address in RAMPZ and Z, if both are known.
pub fn extended_constant(state: &AbsState) -> Option<u32>
    ensures { result ≡ extended_constant state.now }
{
    let bank = value_at(&state.registers, RAMPZ).bits.constant();
    let z = pair_constant(state, base_register(Base::Z));
    match (bank, z) {
        (Some(bank), Some(z)) => Some(65536 * u32::from(bank) + u32::from(z)),
        _ => None,
    }
}

// RAMPZ plus 1; any number that it can hold, if it isn't known.
fn next_bank(device: Device, bank: Option<u8>) -> TriByte
    ensures { result ≡ next_bank device bank }
{
    match bank {
        Some(bank) => TriByte::of(device.kept_of(RAMPZ, bank.wrapping_add(1))),
        None => bank_bits(device, RAMPZ, TriByte::any()),
    }
}

// RAMPZ behind Z+, where Z is 65,535 or may be.
fn joined_bank(z: Option<u16>, was: TriByte, next: TriByte) -> TriByte
    ensures { result ≡ joined_bank z was next }
{
    match z {
        Some(65535) => next,
        _ => was.join(next),
    }
}

/// RAMPZ behind Z+.
pub fn stepped_bank(device: Device, state: &AbsState) -> AbsByte
    ensures { result ≡ stepped_bank device state.now }
{
    let bank = value_at(&state.registers, RAMPZ);
    let z = base_register(Base::Z);
    if !permits_bytes(state, z, 65535) {
        return bank;
    }
    let next = next_bank(device, bank.bits.constant());
    AbsByte::untagged(joined_bank(pair_constant(state, z), bank.bits, next))
}
