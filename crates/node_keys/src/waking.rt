//! The enable bits that a byte may set if it is stored through an unknown pointer.

ghost use Rattle.std.specs.Prelude.{◌≡◌, ◌-◌, true, IfSome, if◌then◌else◌};
ghost use Rattle.std.specs.Int.{bit_at, from_bool};
ghost use Rattle.avr_model.specs.Vectors.{is_vector};
ghost use Rattle.node_keys.specs.Wakes.{may_have, may_enable, may_enable_barred, may_wake, widened, without};

use avr_model::device::Device;
use bit_domain::TriByte;
use vector_table::{Assumptions, EnablePlace, Masks, has_common, has_enable_place, is_barred};

// Whether some place enables vector `v`, and the vector isn't barred.
fn may_wake(device: Device, assumptions: &Assumptions, v: u8) -> bool
    requires vector { is_vector device v ≡ true }
    ensures { result ≡ may_wake device assumptions.now v }
{
    has_enable_place(device, v) && !is_barred(device, assumptions, v)
}

// Whether the enable bit of vector `v` is 1 in the widened set.
fn is_wide(device: Device, assumptions: &Assumptions, masks: Masks, v: u8) -> bool
    requires vector { is_vector device v ≡ true }
    ensures { from_bool result ≡ (if may_wake device assumptions.now v then 1 else bit_at masks (v - 2)) }
{
    may_wake(device, assumptions, v) || masks.is_on(device, v)
}

/// The enable bits with those of all vectors that have a place and aren't barred. A vector is barred if its word has a `never` entry.
pub fn widened(device: Device, assumptions: &Assumptions, masks: Masks) -> Masks
    ensures { result ≡ widened device assumptions.now masks }
{
    let mut wide = Masks::none();
    for v in 2..device.last_vector() + 1 {
        if is_wide(device, assumptions, masks, v) {
            wide = wide.with(device, v, true);
        }
    }
    wide
}

/// The enable bits after a bit reads 0: the enable bit of `vector`, or another bit. Without `may` they are exactly what is enabled, and the
/// vector isn't among them.
pub fn without(device: Device, may: bool, vector: Option<u8>, masks: Masks) -> Masks
    requires vector { IfSome vector (λ v. is_vector device v ≡ true) }
    ensures { result ≡ without device may vector masks }
{
    match vector {
        Some(v) if may => masks.with(device, v, false),
        _ => masks,
    }
}

/// Whether a member of `value` may have 1 at a bit of the mask.
pub fn may_have(value: &TriByte, mask: u8) -> bool
    ensures { result ≡ may_have value.now mask }
{
    has_common(value.value | !value.known, mask)
}

/// Whether a member of `value` may enable the place's vector.
pub fn may_enable(value: &TriByte, place: &EnablePlace) -> bool
    ensures { result ≡ may_enable value.now place.now }
{
    may_have(value, place.mask)
}

/// Whether a member of `value` may enable a vector at data address `address` that is barred.
pub fn may_enable_barred(
    device: Device,
    assumptions: &Assumptions,
    address: u16,
    value: &TriByte,
) -> bool
    ensures { result ≡ may_enable_barred device assumptions.now address value.now }
{
    for place in device.enable_places() {
        if place.address == address
            && may_enable(value, place)
            && is_barred(device, assumptions, place.vector)
        {
            return true;
        }
    }
    false
}
