//! Sums and differences of bytes. `s` is the status register before; each returns the one after.

ghost use Rattle.std.specs.Prelude.{◌≡◌};
ghost use Rattle.abs_alu.specs.Sums.{abs_add, abs_sub};

use crate::flags::{is_zero, with_flags};
use bit_domain::bits::Tri;
use bit_domain::bytes::TriByte;

/// ADD and ADC: `a` plus `b` and a carry.
pub fn add(a: TriByte, b: TriByte, carry: Tri, s: TriByte) -> (TriByte, TriByte)
    ensures { result ≡ abs_add a b carry s }
{
    let sum = bit_domain::sums::add(a, b, carry);
    let overflow = sum.into_top.xor(sum.out);
    let flags = with_flags(
        s,
        sum.out,
        is_zero(sum.bits),
        sum.bits.bit(7),
        overflow,
        sum.half,
    );
    (sum.bits, flags)
}

/// SUB, SUBI, CP, CPI and NEG, and with `keep_zero` SBC, SBCI and CPC: `a` less `b` and a borrow. With `keep_zero` Z is set only if it was
/// set before.
pub fn sub(a: TriByte, b: TriByte, borrow: Tri, keep_zero: bool, s: TriByte) -> (TriByte, TriByte)
    ensures { result ≡ abs_sub a b borrow keep_zero s }
{
    let difference = bit_domain::sums::sub(a, b, borrow);
    let overflow = difference.into_top.xor(difference.out);
    let zero = if keep_zero {
        is_zero(difference.bits).and(s.bit(1))
    } else {
        is_zero(difference.bits)
    };
    let flags = with_flags(
        s,
        difference.out,
        zero,
        difference.bits.bit(7),
        overflow,
        difference.half,
    );
    (difference.bits, flags)
}
