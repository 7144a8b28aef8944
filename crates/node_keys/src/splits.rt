//! The enable bits that a write may leave.

ghost use Rattle.std.specs.Prelude.{◌≡◌, ◌==◌, ◌&&◌, ◌++◌, map, true, IfOk, OnOk};
ghost use Rattle.std.specs.Int.{from_bool};
ghost use Rattle.avr_model.specs.Vectors.{is_vector, is_sticky, has_enables, enable_place_at, with_enable};
ghost use Rattle.node_keys.specs.Splits.{splits, is_any, common_tri, enable_in};

use avr_model::device::Device;
use bit_domain::TriByte;
use std::alloc::{AllocError, Global};
use vector_table::{
    Enable, EnablePlace, Masks, enable_place_at, has_common, has_enables, is_sticky, write,
};

// Appends each again with vector `v` enabled. Fails if memory runs out.
fn double(splits: &mut Vec<Masks>, device: Device, v: u8) -> Result<(), AllocError>
    requires vector { is_vector device v ≡ true }
    ensures { OnOk result (splits.new.items ≡ splits.old.items ++ map (λ n. with_enable device n v true) splits.old.items) }
{
    let count = splits.len();
    for at in 0..count {
        let enabled = splits[at].with(device, v, true);
        splits.push(enabled)?;
    }
    Ok(())
}

// Whether an enable bit stays 1, whatever is written.
#[tactic(auto, using(crate::proofs::Steps::old_is))]
fn stays(enable: Enable, old: bool) -> bool
    ensures { result ≡ (is_sticky enable && (from_bool old == 1)) }
{
    is_sticky(enable) && old
}

// Whether it is unknown if the byte and the mask have 1 at one bit.
fn is_common_unknown(value: &TriByte, mask: u8) -> bool
    ensures { result ≡ is_any (common_tri value.now mask) }
{
    let one = has_common(value.value, mask);
    let any = has_common(!value.known, mask);
    if one { false } else { any }
}

// Whether writing the byte to the place of an enable bit, which was `old`, leaves it unknown.
fn is_unknown(place: Option<EnablePlace>, value: &TriByte, old: bool) -> bool
    ensures { result ≡ is_any (enable_in place value.now (from_bool old)) }
{
    match place {
        Some(place) => {
            if stays(place.enable, old) {
                false
            } else {
                is_common_unknown(value, place.mask)
            }
        }
        None => false,
    }
}

// The place of a vector at a data address where vectors are enabled if `here`.
#[tactic(auto, using(crate::proofs::Steps::not_here))]
fn place_if(here: bool, device: Device, v: u8, address: u16) -> Option<EnablePlace>
    requires { here ≡ has_enables device address }
    ensures { result ≡ enable_place_at device v address }
{
    if here {
        enable_place_at(device, v, address)
    } else {
        None
    }
}

/// All enable bits that writing a member of `value` to data address `address` may leave of `m`: at most 256, strictly ascending. Each
/// unknown enable bit at the address doubles their number. Fails if memory runs out.
pub fn split(
    alloc: Global,
    device: Device,
    m: Masks,
    address: u16,
    value: &TriByte,
) -> Result<Vec<Masks>, AllocError>
    ensures { IfOk result (λ all. all.items ≡ splits device m address value.now) }
{
    // An unknown bit is 0 in the byte's value, and is set from the least vector up, so the list ascends.
    let mut splits = Vec::new(alloc);
    splits.push(write(device, m, address, value.value))?;
    let here = has_enables(device, address);
    for v in 2..device.last_vector() + 1 {
        if is_unknown(
            place_if(here, device, v, address),
            value,
            m.is_on(device, v),
        ) {
            double(&mut splits, device, v)?;
        }
    }
    Ok(splits)
}
