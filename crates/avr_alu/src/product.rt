//! Products of two bytes.

ghost use Rattle.std.specs.Prelude.{◌≡◌};
ghost use Rattle.avr_model.specs.Product.{word_of, result_of, is_fractional, flags_of_product};

use crate::sreg::Sreg;
use avr_model::operation::Mul;
use bitflags::Flags;

// The product in 16 bits, before a fractional operation doubles it.
fn word(op: Mul, a: u8, b: u8) -> u16
    ensures { result ≡ word_of op a b }
{
    let x = i16::from(a.cast_signed());
    let y = i16::from(b.cast_signed());
    match op {
        Mul::Mul | Mul::Fmul => u16::from(a) * u16::from(b),
        Mul::Muls | Mul::Fmuls => (x * y).cast_unsigned(),
        Mul::Mulsu | Mul::Fmulsu => (x * i16::from(b)).cast_unsigned(),
    }
}

// Whether the operation is fractional, which doubles the product.
fn is_doubled(op: Mul) -> bool
    ensures { result ≡ is_fractional op }
{
    match op {
        Mul::Mul | Mul::Muls | Mul::Mulsu => false,
        Mul::Fmul | Mul::Fmuls | Mul::Fmulsu => true,
    }
}

/// MUL, MULS, MULSU, FMUL, FMULS and FMULSU: the product of two bytes in 16 bits. C is bit 15 of the product before doubling, Z says that
/// the result is 0, and other flags stay. Source: Instruction Set Manual, MUL to FMULSU.
pub fn mul(op: Mul, a: u8, b: u8, s: Sreg) -> (u16, Sreg)
    ensures value { result.0 ≡ result_of op a b }
    ensures flags { result.1.0 ≡ flags_of_product op a b s.0 }
{
    let product = word(op, a, b);
    let r = if is_doubled(op) {
        product.wrapping_mul(2)
    } else {
        product
    };
    let mut flags = s;
    flags.set(Sreg::C, product >= 0x8000);
    flags.set(Sreg::Z, r == 0);
    (r, flags)
}
