//! Bytes of flash that a partly known pointer may read.

ghost use Rattle.std.specs.Prelude.{◌≡◌, ◌<◌, ◌*◌, if◌then◌else◌, Some, None};
ghost use Rattle.abs_state.specs.Values.{set_of};
ghost use Rattle.abs_state.specs.PairBytes.{sets};
ghost use Rattle.pair_rules.specs.Flash as bytes;

use abs_state::{AbsByte, PairBytes};
use flash_image::Flash;

// Whether bits and range permit the byte.
fn permits_byte(value: AbsByte, byte: u8) -> bool
    ensures { result ≡ bytes.set_permits (set_of value) byte }
{
    value.low <= byte && byte <= value.high && value.bits.has(byte)
}

// Whether the pair may hold the number: its interval and both bytes permit it.
fn permits(pair: PairBytes, number: u16) -> bool
    ensures { result ≡ bytes.pair_permits (sets pair) number }
{
    pair.interval.low <= number
        && number <= pair.interval.high
        && permits_byte(pair.low, (number % 256) as u8)
        && permits_byte(pair.high, (number / 256) as u8)
}

// Joins a value to an optional one.
fn joined_with(joined: Option<AbsByte>, value: AbsByte) -> AbsByte
    ensures { result ≡ bytes.joined_with joined value }
{
    match joined {
        Some(joined) => joined.join(value),
        None => value,
    }
}

/// The join of the bytes of a bank of 65,536 bytes of flash at the numbers that the pair permits; the inner option is none if it permits
/// none. `None` if there are more than 64, or some outside flash.
#[tactic(auto, using(avr_model::proofs::AllLaws::devices_are_alike))]
pub fn joined(flash: &Flash, bank: u8, pair: PairBytes) -> Option<Option<AbsByte>>
    ensures { result ≡ (if bytes.few_in_flash flash.now (65536 * bank) (bytes.pair_permits (sets pair)) then Some (bytes.flash_joined flash.now (65536 * bank) (bytes.pair_permits (sets pair))) else None) }
{
    let from = 65536 * u32::from(bank);
    let end = 2 * flash.device().words();
    let mut count: u32 = 0;
    let mut value: Option<AbsByte> = None;
    for z in u32::from(pair.interval.low)..u32::from(pair.interval.high) + 1 {
        if permits(pair, z as u16) {
            let at = from + z;
            if count == 64 || at >= end {
                return None;
            }
            count += 1;
            value = Some(joined_with(value, AbsByte::known(flash.byte(at))));
        }
    }
    Some(value)
}
