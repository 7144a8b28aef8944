//! Sums and differences of two bytes. T and I are kept.

ghost use Rattle.std.specs.Prelude.{◌≡◌, ◌%◌};
ghost use Rattle.avr_model.specs.Sums.{sum_of, flags_of_sum, difference_of, flags_of_difference};

use crate::sreg::{FlagOutcome, Sreg};

/// ADD and ADC: the sum of `a`, `b` and a carry. C and H are the carries out of bits 7 and 3, V is signed overflow. Source: Instruction Set
/// Manual, ADD and ADC.
pub fn add(a: u8, b: u8, carry: bool, s: Sreg) -> (u8, Sreg)
    ensures value { result.0 ≡ sum_of a b carry % 256 }
    ensures flags { result.1.0 ≡ flags_of_sum a b carry s.0 }
{
    let r = a.wrapping_add(b).wrapping_add(u8::from(carry));
    let carries = (a & b) | ((a | b) & !r);
    let overflow = (a ^ r) & (b ^ r);
    let flags = s.with_outcome(FlagOutcome {
        carry: carries & 0x80 != 0,
        zero: r == 0,
        negative: r & 0x80 != 0,
        overflow: overflow & 0x80 != 0,
        half_carry: carries & 0x08 != 0,
    });
    (r, flags)
}

/// SUB, SUBI, CP, CPI and NEG, and with `keep_zero` SBC, SBCI and CPC: `a` less `b` and a borrow. C and H are the borrows into bits 7 and
/// 3, V is signed overflow. With `keep_zero` Z is cleared or kept, never set. Source: Instruction Set Manual, SUB, SBC, CP, CPC and NEG.
pub fn sub(a: u8, b: u8, borrow: bool, keep_zero: bool, s: Sreg) -> (u8, Sreg)
    ensures value { result.0 ≡ difference_of a b borrow }
    ensures flags { result.1.0 ≡ flags_of_difference a b borrow keep_zero s.0 }
{
    let r = a.wrapping_sub(b).wrapping_sub(u8::from(borrow));
    let borrows = (!a & b) | ((!a | b) & r);
    let overflow = (a ^ b) & (a ^ r);
    let flags = s.with_outcome(FlagOutcome {
        carry: borrows & 0x80 != 0,
        zero: (r == 0) & (!keep_zero | s.zero()),
        negative: r & 0x80 != 0,
        overflow: overflow & 0x80 != 0,
        half_carry: borrows & 0x08 != 0,
    });
    (r, flags)
}
