//! Operations on the bits of one byte. `s` is the status register before; each returns the one after.

ghost use Rattle.std.specs.Prelude.{◌≡◌};
ghost use Rattle.abs_alu.specs.Bitwise.{abs_logic, abs_com, abs_step_one, shift_bits, abs_shift};

use crate::flags::after_result;
use avr_model::operation::{Logic, Shift};
use bit_domain::bits::Tri;
use bit_domain::bytes::TriByte;
use bit_domain::logic::{and, eor, equal, not, or};
use bit_domain::sums::{add, sub};

/// AND, ANDI, OR, ORI and EOR. C and H stay.
pub fn logic(op: Logic, a: TriByte, b: TriByte, s: TriByte) -> (TriByte, TriByte)
    ensures { result ≡ abs_logic op a b s }
{
    let r = match op {
        Logic::And => and(a, b),
        Logic::Or => or(a, b),
        Logic::Eor => eor(a, b),
    };
    (r, after_result(r, s.bit(0), Tri::Zero, s))
}

/// COM: complements each bit. H stays.
pub fn com(a: TriByte, s: TriByte) -> (TriByte, TriByte)
    ensures { result ≡ abs_com a s }
{
    let r = not(a);
    (r, after_result(r, Tri::One, Tri::Zero, s))
}

/// INC if `up`, otherwise DEC. C and H stay.
pub fn step_one(up: bool, a: TriByte, s: TriByte) -> (TriByte, TriByte)
    ensures { result ≡ abs_step_one up a s }
{
    let one = TriByte::of(1);
    let r = if up {
        add(a, one, Tri::Zero).bits
    } else {
        sub(a, one, Tri::Zero).bits
    };
    // The result at which a step overflows.
    let limit = if up { 0x80 } else { 0x7F };
    let overflow = equal(r, TriByte::of(limit));
    (r, after_result(r, s.bit(0), overflow, s))
}

// Shifts each bit one place down, with a new top bit.
fn shifted(a: TriByte, top: Tri) -> TriByte
    ensures { result ≡ shift_bits a top }
{
    TriByte::new(a.known >> 1, a.value >> 1).with(7, top)
}

/// LSR, ROR and ASR: shifts one place down. C is the old bit 0, and H stays.
pub fn shift(op: Shift, a: TriByte, s: TriByte) -> (TriByte, TriByte)
    ensures { result ≡ abs_shift op a s }
{
    let top = match op {
        Shift::Lsr => Tri::Zero,
        Shift::Ror => s.bit(0),
        Shift::Asr => a.bit(7),
    };
    let r = shifted(a, top);
    let carry = a.bit(0);
    (r, after_result(r, carry, r.bit(7).xor(carry), s))
}
