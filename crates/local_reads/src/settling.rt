//! High bytes without SPH: behind an instruction no byte has the tag of one.

ghost use Rattle.std.specs.Prelude.{◌≡◌, true};
ghost use Rattle.abs_state.specs.PairBytes.{left_in};
ghost use Rattle.local_rules.specs.Settling.{settled_high, settled_value, settled_values, settled_state};
ghost use Rattle.local_reads.specs.Settling.{values_in};

use crate::members::may_be;
use abs_state::{AbsByte, AbsState, Registers};
use local_rules::SpView;
use sp_domain::Tag;

// A high byte of base - k: 0 where k is at most the offset, and none if the value doesn't permit that; else without the tag.
fn settled_high(offset: u16, k: u16, value: AbsByte) -> Option<AbsByte>
    ensures { result ≡ settled_high offset k value }
{
    if k > offset {
        let tag = Tag::None;
        return Some(AbsByte { tag, ..value });
    }
    if may_be(value, 0) {
        Some(AbsByte::known(0))
    } else {
        None
    }
}

// The value behind an instruction.
fn settled_value(offset: u16, value: AbsByte) -> Option<AbsByte>
    ensures { result ≡ settled_value offset value }
{
    match value.tag {
        Tag::SpHi(k) => settled_high(offset, k, value),
        _ => Some(value),
    }
}

// Settles all registers. Returns whether each value is possible.
fn settle_registers(offset: u16, registers: &mut Registers) -> bool
    ensures { values_in result registers.new ≡ settled_values offset registers.old }
{
    for r in 0..registers.len() {
        match settled_value(offset, registers[r]) {
            Some(value) => registers[r] = value,
            None => return false,
        }
    }
    true
}

/// Settles a state behind an instruction. Returns whether anything is left. With SPH the state stays.
pub fn settle(view: SpView, state: &mut AbsState) -> bool
    ensures left { left_in result state.new ≡ settled_state view state.old }
    ensures slots { result ≡ true → state.new.slots ≡ state.old.slots }
{
    if view.high {
        return true;
    }
    settle_registers(view.offset, &mut state.registers)
}
