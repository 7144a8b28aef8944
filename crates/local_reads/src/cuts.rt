//! The registers after a branch on C: the range of the register in the carry tag is cut.

ghost use Rattle.std.specs.Prelude.{◌≡◌};
ghost use Rattle.local_rules.specs.Flow.{part_of};
ghost use Rattle.local_reads.specs.Cuts.{register_cut, registers_where};

use abs_state::{AbsByte, AbsState, Registers};
use avr_model::device::REGISTERS;
use sp_domain::CarryTag;

// The value cut to bytes below a number if `below`, else to bytes from it on. None if nothing is left.
fn part_of(below: bool, value: AbsByte, number: u8) -> Option<AbsByte>
    ensures { result ≡ part_of below value number }
{
    if below {
        if value.low < number {
            return Some(AbsByte {
                high: value.high.min(number - 1),
                ..value
            });
        }
        return None;
    }
    if number <= value.high {
        return Some(AbsByte {
            low: value.low.max(number),
            ..value
        });
    }
    None
}

// The registers with one cut; an `r` behind EIND cuts none.
fn cut(registers: &Registers, r: usize, below: bool, number: u8) -> Option<Registers>
    ensures { result ≡ register_cut registers.now r below number }
{
    let is_register = r < usize::from(REGISTERS);
    let value = if is_register {
        registers[r]
    } else {
        AbsByte::unknown()
    };
    let part = part_of(below, value, number)?;
    let mut after = *registers;
    if is_register {
        after[r] = part;
    }
    Some(after)
}

/// The registers if C has this value; none if that is impossible.
pub fn registers_where(state: &AbsState, carry: bool) -> Option<Registers>
    ensures { result ≡ registers_where state.now.flags.carry state.now.registers carry }
{
    match state.flags.carry {
        CarryTag::Less(r, number) => cut(&state.registers, usize::from(r), carry, number),
        CarryTag::None | CarryTag::Borrow(_, _) | CarryTag::Sum(_, _) => Some(state.registers),
    }
}
