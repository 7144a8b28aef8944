//! Products of bytes.

ghost use Rattle.std.specs.Prelude.{◌≡◌};
ghost use Rattle.abs_alu.specs.Product.{abs_mul};

use avr_alu::sreg::Sreg;
use avr_model::operation::Mul;
use bit_domain::bits::Tri;
use bit_domain::bytes::TriByte;

/// MUL, MULS, MULSU, FMUL, FMULS and FMULSU: low and high byte of the product, and the status register after it. Exact if both operands are
/// known; otherwise the product, C and Z are unknown. Other flags stay.
pub fn mul(op: Mul, a: TriByte, b: TriByte, s: TriByte) -> ((TriByte, TriByte), TriByte)
    ensures { result ≡ abs_mul op a b s }
{
    match (a.constant(), b.constant()) {
        (Some(x), Some(y)) => {
            let (product, flags) = avr_alu::product::mul(op, x, y, Sreg(0));
            let flags = TriByte::of(flags.0);
            let [low, high] = product.to_le_bytes();
            (
                (TriByte::of(low), TriByte::of(high)),
                s.with(0, flags.bit(0)).with(1, flags.bit(1)),
            )
        }
        _ => (
            (TriByte::any(), TriByte::any()),
            s.with(0, Tri::Any).with(1, Tri::Any),
        ),
    }
}
