//! Operations on the bits of one byte. All of them keep H.

ghost use Rattle.std.specs.Prelude.{◌≡◌, ◌-◌, ◌*◌, ◌^◌, true, false};
ghost use Rattle.avr_model.specs.Sreg.{flag};
ghost use Rattle.avr_model.specs.Bitwise.{logic_of, flags_of_result, step_of, step_overflows, top_of, shift_of, flags_of_shift};

use crate::sreg::{FlagOutcome, Sreg};
use avr_model::operation::{Logic, Shift};

// The status register with these C and V, with N and Z of a result. H stays.
fn of_result(carry: bool, overflow: bool, result_byte: u8, s: Sreg) -> Sreg
    ensures { result.0 ≡ flags_of_result carry overflow result_byte s.0 }
{
    s.with_outcome(FlagOutcome {
        carry,
        zero: result_byte == 0,
        negative: result_byte & 0x80 != 0,
        overflow,
        half_carry: s.half_carry(),
    })
}

/// AND, OR and EOR of two bytes, and their flags: V is cleared, and C stays. Source: Instruction Set Manual, AND, ANDI, OR, ORI and EOR.
pub fn logic(op: Logic, a: u8, b: u8, s: Sreg) -> (u8, Sreg)
    ensures value { result.0 ≡ logic_of op a b }
    ensures flags { result.1.0 ≡ flags_of_result (flag s.0 0) false (logic_of op a b) s.0 }
{
    let r = match op {
        Logic::And => a & b,
        Logic::Or => a | b,
        Logic::Eor => a ^ b,
    };
    (r, of_result(s.carry(), false, r, s))
}

/// COM, which complements each bit: V is cleared, and C is set. Source: Instruction Set Manual, COM.
pub fn com(a: u8, s: Sreg) -> (u8, Sreg)
    ensures value { result.0 ≡ 255 - a }
    ensures flags { result.1.0 ≡ flags_of_result true false (255 - a) s.0 }
{
    (!a, of_result(true, false, !a, s))
}

/// INC if `up`, otherwise DEC: V says that the signed byte wrapped, and C stays. Source: Instruction Set Manual, INC and DEC.
pub fn step_one(up: bool, a: u8, s: Sreg) -> (u8, Sreg)
    ensures value { result.0 ≡ step_of up a }
    ensures flags { result.1.0 ≡ flags_of_result (flag s.0 0) (step_overflows up (step_of up a)) (step_of up a) s.0 }
{
    let r = if up {
        a.wrapping_add(1)
    } else {
        a.wrapping_sub(1)
    };
    let overflow = if up { r == 0x80 } else { r == 0x7F };
    (r, of_result(s.carry(), overflow, r, s))
}

// The bit that a shift brings in at the top, in its place.
fn top(op: Shift, a: u8, s: Sreg) -> u8
    ensures { result ≡ top_of op a s.0 * 2 ^ 7 }
{
    match op {
        Shift::Lsr => 0,
        Shift::Ror => u8::from(s.carry()) << 7,
        Shift::Asr => a & 0x80,
    }
}

/// LSR, ROR and ASR: shifts one place down. C is the bit shifted out, and V is N xor C. Source: Instruction Set Manual, LSR, ROR and ASR.
pub fn shift(op: Shift, a: u8, s: Sreg) -> (u8, Sreg)
    ensures value { result.0 ≡ shift_of op a s.0 }
    ensures flags { result.1.0 ≡ flags_of_shift a (shift_of op a s.0) s.0 }
{
    let r = a >> 1 | top(op, a, s);
    let carry = a & 1 != 0;
    let negative = r & 0x80 != 0;
    (r, of_result(carry, negative != carry, r, s))
}
