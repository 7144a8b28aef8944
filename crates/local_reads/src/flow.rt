//! Targets of jumps, branches and skips, and their conditions.

ghost use Rattle.std.specs.Prelude.{◌≡◌, ◌<◌, ◌+◌, ℕ, nat_lt, if◌then◌else◌};
ghost use Rattle.avr_model.specs.Assumptions.{lists};
ghost use Rattle.avr_model.specs.Devices.{width};
ghost use Rattle.avr_model.specs.Effects as effects;
ghost use Rattle.bit_domain.specs.TriByte.{tri_at};
ghost use Rattle.bit_domain.specs.declared.bits.Tri.TheVariants.{Any};
ghost use Rattle.local_rules.specs.Registers as registers;
ghost use Rattle.local_rules.specs.Raw as raw;
ghost use Rattle.local_rules.specs.Reads as reads;
ghost use Rattle.local_rules.specs.Flow.{words_on, z_with, reading_zero};

use crate::reads::read_at;
use abs_state::AbsState;
use avr_model::device::Device;
use avr_model::instruction::{Base, Bit, LowPort, Register, Six};
use bit_domain::{Tri, TriByte};
use local_rows::registers::{bits, pair};
use local_rows::transfer::base_register;
use node_keys::{NodeKey, without};
use vector_table::held_of;

/// The word this many words further on, modulo the number of words.
#[tactic(auto, using(crate::proofs::Permitted::of_32))]
pub fn further(device: Device, key: &NodeKey, words: u16) -> u32
    ensures { result ≡ raw.further device key.now words }
{
    device.wrap(key.pc.wrapping_add(u32::from(words)))
}

/// The data address of an I/O address.
pub fn port(device: Device, address: Six) -> u16
    ensures { result ≡ effects.port device address }
{
    address.get() + device.io_base()
}

/// A bit of an I/O address, which `sbic` and `sbis` test. `may` says whether the key has what may be enabled.
pub fn port_bit(
    device: Device,
    may: bool,
    key: &NodeKey,
    state: &AbsState,
    address: LowPort,
    bit: Bit,
) -> Tri
    ensures { result ≡ tri_at (reads.read_at device may key.now state.now (effects.port device address)).bits bit }
{
    let read = read_at(device, may, key, state, port(device, address.widened()));
    read.bits.bit(bit.get() as u8)
}

/// The key after this bit of an I/O address reads 0. If `may`, the key has what may be enabled, and the vector of a held bit is removed.
pub fn reading_zero(device: Device, may: bool, key: &NodeKey, address: LowPort, bit: Bit) -> NodeKey
    ensures { result ≡ reading_zero device may key.now (effects.port device address) bit }
{
    let vector = held_of(device, port(device, address.widened()), bit.get() as u8);
    NodeKey {
        masks: without(device, may, vector, key.masks),
        ..*key
    }
}

/// A bit of a register, which `sbrc` and `sbrs` test.
pub fn register_bit(state: &AbsState, r: Register, bit: Bit) -> Tri
    ensures { result ≡ tri_at (registers.bits state.now r) bit }
{
    bits(state, r).bit(bit.get() as u8)
}

// The byte of a pointer above so many bits, with all bits beyond a word address unknown.
fn opened(device: Device, byte: TriByte, below: u8) -> TriByte
    ensures { (i : ℕ) → i < 8 → tri_at result i ≡ (if nat_lt (i + below) (width device) then tri_at byte i else Any) }
{
    let mut opened = byte;
    for bit in device.width().saturating_sub(below)..8 {
        opened = opened.with(bit, Tri::Any);
    }
    opened
}

/// Whether an indirect transfer may go to this word, with this third byte above Z.
pub fn is_target(device: Device, state: &AbsState, bank: TriByte, word: u32) -> bool
    ensures { result ≡ lists (words_on device (z_with state.now bank)) word }
{
    let (low, high) = pair(state, base_register(Base::Z));
    if word >= device.words() {
        return false;
    }
    if !low.bits.has((word % 256) as u8) {
        return false;
    }
    if !opened(device, high.bits, 8).has((word / 256 % 256) as u8) {
        return false;
    }
    opened(device, bank, 16).has((word / 65_536) as u8)
}
