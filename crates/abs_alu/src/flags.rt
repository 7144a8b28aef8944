//! The flags of a result.

ghost use Rattle.std.specs.Prelude.{◌≡◌};
ghost use Rattle.abs_alu.specs.Flags.{tri_flags, tri_zero, result_flags};

use bit_domain::bits::Tri;
use bit_domain::bytes::TriByte;
use bit_domain::logic::equal;

// The status register with these flags, with S as N xor V. T and I stay.
pub(crate) fn with_flags(
    s: TriByte,
    carry: Tri,
    zero: Tri,
    negative: Tri,
    overflow: Tri,
    half: Tri,
) -> TriByte
    ensures { result ≡ tri_flags carry zero negative overflow half s }
{
    s.with(0, carry)
        .with(1, zero)
        .with(2, negative)
        .with(3, overflow)
        .with(4, negative.xor(overflow))
        .with(5, half)
}

// Whether a result is 0.
pub(crate) fn is_zero(r: TriByte) -> Tri
    ensures { result ≡ tri_zero r }
{
    equal(r, TriByte::of(0))
}

// The status register after a result, with these C and V. H stays.
pub(crate) fn after_result(r: TriByte, carry: Tri, overflow: Tri, s: TriByte) -> TriByte
    ensures { result ≡ result_flags carry overflow r s }
{
    with_flags(s, carry, is_zero(r), r.bit(7), overflow, s.bit(5))
}
