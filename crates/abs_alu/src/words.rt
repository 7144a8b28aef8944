//! Sums and differences of a word and a small number.

ghost use Rattle.std.specs.Prelude.{◌≡◌};
ghost use Rattle.abs_alu.specs.Words.{abs_wide};

use crate::flags::{is_zero, with_flags};
use bit_domain::bits::Tri;
use bit_domain::bytes::TriByte;
use bit_domain::sums::{add, sub};

/// ADIW if `up`, otherwise SBIW: the word of low and high byte `a` plus or less `k`, and the status register after it; `s` is the one
/// before. Z says that the whole word is 0, and H stays.
pub fn wide(up: bool, a: (TriByte, TriByte), k: u8, s: TriByte) -> ((TriByte, TriByte), TriByte)
    ensures { result ≡ abs_wide up a k s }
{
    let (number, nothing) = (TriByte::of(k), TriByte::of(0));
    let (low, high) = if up {
        let low = add(a.0, number, Tri::Zero);
        (low, add(a.1, nothing, low.out))
    } else {
        let low = sub(a.0, number, Tri::Zero);
        (low, sub(a.1, nothing, low.out))
    };
    let zero = is_zero(low.bits).and(is_zero(high.bits));
    let overflow = high.into_top.xor(high.out);
    let flags = with_flags(s, high.out, zero, high.bits.bit(7), overflow, s.bit(5));
    ((low.bits, high.bits), flags)
}
