//! Shows `bit_domain` with `abs_alu`.

ghost use Rattle.std.specs.Prelude.{ℕ, ◌<◌, ◌+◌, ◌%◌};
ghost use Rattle.bit_domain.specs.Ranges.{InRange};
ghost use Rattle.bit_domain.specs.TriByte.{Has};

use abs_alu::laws::operations_cover;
use bit_domain::{Range, Tri, TriByte};

/// The range of the sums, modulo 256, of the members of two bytes.
pub fn range_of_sums(a: TriByte, b: TriByte) -> Range
    ensures { (x y : ℕ) → x < 256 → y < 256 → Has a x → Has b y → InRange result ((x + y) % 256) }
{
    operations_cover();
    let any = TriByte::any();
    let (sum, _) = abs_alu::add(a, b, Tri::Zero, any);
    Range::of_bits(sum)
}
