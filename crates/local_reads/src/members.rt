//! The bytes that a value permits, and the numbers that a register pair does.

ghost use Rattle.std.specs.Prelude.{◌≡◌};
ghost use Rattle.local_rules.specs.Permitted as permitted;

use crate::pointers::has;
use abs_state::{AbsByte, AbsState};
use avr_model::instruction::LowRegister;
use local_rows::registers::pair;
use pair_rows::told::interval_of;

/// Whether the byte is possible: the bits permit it, and it lies in the range.
pub fn may_be(value: AbsByte, byte: u8) -> bool
    ensures { result ≡ permitted.may_be value byte }
{
    has(value.bits, byte) && value.low <= byte && byte <= value.high
}

/// Whether bits and ranges permit that registers `r` and `r + 1` hold this number.
pub fn permits_bytes(state: &AbsState, r: LowRegister, number: u16) -> bool
    ensures { result ≡ permitted.permits_bytes state.now r number }
{
    let (low, high) = pair(state, r);
    may_be(low, (number % 256) as u8) && may_be(high, (number / 256) as u8)
}

/// Whether registers `r` and `r + 1` may hold this number, by bits and ranges, and if pairs are followed also by their interval.
pub fn permits_number(state: &AbsState, r: LowRegister, number: u16) -> bool
    ensures { result ≡ permitted.permits_number state.now r number }
{
    let is_permitted = permits_bytes(state, r, number);
    match state.facts.get() {
        None => is_permitted,
        Some(facts) => {
            let interval = interval_of(&facts, r.widened());
            is_permitted && (interval.low <= number && number <= interval.high)
        }
    }
}
