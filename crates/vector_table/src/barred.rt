//! Barred vectors: those with a `never` entry.

ghost use Rattle.std.specs.Prelude.{◌≡◌, true};
ghost use Rattle.avr_model.specs.Masks.{is_barred, enables_barred};
ghost use Rattle.avr_model.specs.Vectors.{is_vector};

use crate::assumption_list::Assumptions;
use crate::table::has_common;
use avr_model::device::Device;

/// Whether the word of vector `v` has a `never` entry.
pub fn is_barred(device: Device, assumptions: &Assumptions, v: u8) -> bool
    requires vector { is_vector device v ≡ true }
    ensures { result ≡ is_barred device assumptions.now v }
{
    assumptions.never(device.vector_word(v))
}

/// Whether `byte` has 1 at a bit of data address `address` that enables a vector whose word has a `never` entry.
pub fn enables_barred(device: Device, assumptions: &Assumptions, address: u16, byte: u8) -> bool
    ensures { result ≡ enables_barred device assumptions.now address byte }
{
    for place in device.enable_places() {
        if place.address == address
            && has_common(byte, place.mask)
            && is_barred(device, assumptions, place.vector)
        {
            return true;
        }
    }
    false
}
