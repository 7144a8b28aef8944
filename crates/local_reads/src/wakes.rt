//! Stores through a pointer that may enable a vector.

ghost use Rattle.std.specs.Prelude.{◌≡◌};
ghost use Rattle.node_keys.specs.Wakes.{may_enable_other};
ghost use Rattle.local_reads.specs.Waking.{is_permitted, may_enable_reached};

use crate::members::permits_number;
use abs_state::AbsState;
use avr_model::device::Device;
use avr_model::instruction::LowRegister;
use bit_domain::TriByte;
use node_keys::may_enable;
use vector_table::{Assumptions, EnablePlace, is_barred};

/// A byte that is stored through a pointer.
#[derive(Clone, Copy)]
pub struct PointerByte<'a> {
    /// The device.
    pub device: Device,
    /// The assumptions.
    pub assumptions: &'a Assumptions,
    /// The state before the store.
    pub state: &'a AbsState,
    /// The first register of the pointer.
    pub r: LowRegister,
    /// The displacement, added modulo 65,536.
    pub up: u16,
    /// The bits of the byte.
    pub bits: TriByte,
}

// Whether the byte may go to the place, and enable its vector.
fn may_enable_reached(byte: &PointerByte<'_>, place: &EnablePlace) -> bool
    ensures { result ≡ may_enable_reached (is_permitted byte.now) byte.now.bits place.now }
{
    let number = place.address.wrapping_sub(byte.up);
    permits_number(byte.state, byte.r, number) && may_enable(&byte.bits, place)
}

/// Whether the byte may enable a vector that isn't barred, at an address that the pointer permits.
pub fn may_enable_other(byte: &PointerByte<'_>) -> bool
    ensures { result ≡ may_enable_other byte.now.device byte.now.assumptions.now (is_permitted byte.now) byte.now.bits }
{
    for place in byte.device.enable_places() {
        if may_enable_reached(byte, place)
            && !is_barred(byte.device, byte.assumptions, place.vector)
        {
            return true;
        }
    }
    false
}
