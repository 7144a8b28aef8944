//! Sums and differences of a word and a small number. H, T and I are kept.

ghost use Rattle.std.specs.Prelude.{◌≡◌};
ghost use Rattle.avr_model.specs.Wide.{wide_of, flags_of_wide};

use crate::sreg::{FlagOutcome, Sreg};

/// ADIW if `up`, otherwise SBIW: a word plus or minus `k`. C is the carry or borrow of 16 bits, V is signed overflow of 16 bits, and N is
/// bit 15. Source: Instruction Set Manual, ADIW and SBIW, whose `k` is 0 to 63; here it may be any byte.
pub fn wide(up: bool, a: u16, k: u8, s: Sreg) -> (u16, Sreg)
    ensures value { result.0 ≡ wide_of up a k }
    ensures flags { result.1.0 ≡ flags_of_wide up a k s.0 }
{
    let k = u16::from(k);
    // A fall of bit 15 is the carry of a sum and the overflow of a difference; a rise is the reverse.
    let (r, carry, overflow) = if up {
        let r = a.wrapping_add(k);
        (r, !r & a, r & !a)
    } else {
        let r = a.wrapping_sub(k);
        (r, r & !a, !r & a)
    };
    let flags = s.with_outcome(FlagOutcome {
        carry: carry & 0x8000 != 0,
        zero: r == 0,
        negative: r & 0x8000 != 0,
        overflow: overflow & 0x8000 != 0,
        half_carry: s.half_carry(),
    });
    (r, flags)
}
