//! The possible targets of an indirect transfer.

ghost use Rattle.std.specs.Prelude.{◌≡◌, ◌≤◌, ◌<◌, ◌↔◌, length, IfOk, IsOk, IsErr};
ghost use Rattle.avr_model.specs.Devices.{width, limit_width};
ghost use Rattle.bit_domain.specs.Numbers as numbers;
ghost use Rattle.bit_domain.specs.Numbers.{numbers_of, targets_of};
ghost use Rattle.assumption_files.specs.Targets.{most_targets, pointer_of, KeepsTargets};

use crate::target_list::{Targets, TooMany};
use avr_model::device::Device;
use bit_domain::laws::bytes_are_sets;
use bit_domain::{Tri, TriByte};

// Bit `i`, from 0 to 23, of the pointer with these bytes.
fn pointer_bit(low: &TriByte, high: &TriByte, bank: &TriByte, i: u8) -> Tri
    requires { i < 24 }
    ensures { result ≡ numbers.pointer_bit (pointer_of low.now high.now bank.now) i }
{
    if i < 8 {
        low.bit(i)
    } else if i < 16 {
        high.bit(i - 8)
    } else {
        bank.bit(i - 16)
    }
}

// The words of this many bits. Fails if there are too many.
fn words_of(low: &TriByte, high: &TriByte, bank: &TriByte, width: u8) -> Result<Targets, TooMany>
    requires { width ≤ 17 }
    ensures { KeepsTargets result (numbers_of (numbers.pointer_bit (pointer_of low.now high.now bank.now)) width) }
{
    bytes_are_sets();
    let mut words = Targets::zero();
    for i in 0..width {
        words = words.with_bit(pointer_bit(low, high, bank, i), 1 << i)?;
    }
    Ok(words)
}

/// The possible targets of an indirect transfer by a pointer with these bytes, the low one first: those of all members, modulo the limit
/// of word addresses in the device's texts. Fails with `TooMany` exactly if there are more than 64.
pub fn targets(
    device: Device,
    low: &TriByte,
    high: &TriByte,
    bank: &TriByte,
) -> Result<Targets, TooMany>
    ensures words { IfOk result (λ t. t ≡ targets_of (limit_width device) (pointer_of low.now high.now bank.now)) }
    ensures few { IsOk result ↔ (length (targets_of (limit_width device) (pointer_of low.now high.now bank.now)) ≤ most_targets) }
    ensures many { IsErr result ↔ (most_targets < length (targets_of (limit_width device) (pointer_of low.now high.now bank.now))) }
{
    words_of(low, high, bank, device.width().max(14))
}

/// The possible targets modulo the words of the device's flash. Fails with `TooMany` exactly if there are more than 64 modulo that limit.
pub fn targets_on(
    device: Device,
    low: &TriByte,
    high: &TriByte,
    bank: &TriByte,
) -> Result<Targets, TooMany>
    ensures words { IfOk result (λ t. t ≡ numbers_of (numbers.pointer_bit (pointer_of low.now high.now bank.now)) (width device)) }
    ensures few { IsOk result ↔ (length (targets_of (limit_width device) (pointer_of low.now high.now bank.now)) ≤ most_targets) }
{
    targets(device, low, high, bank)?;
    words_of(low, high, bank, device.width())
}
