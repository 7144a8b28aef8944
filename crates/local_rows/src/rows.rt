//! Rows that only set registers and flags.

ghost use Rattle.std.specs.Prelude.{◌≡◌};
ghost use Rattle.local_rules.specs.FrameLines.{binary_at, immediate_at, unary_at};
ghost use Rattle.local_rules.specs.Registers.{binary_after};
ghost use Rattle.local_rows.specs.Sections.{IsSectionRow};
ghost use Rattle.local_rows.specs.Sections as sections;

use crate::arithmetic::{
    BorrowIn, NO_BORROW, UNTAGGED, byte_set, carry_bit, compare, difference, less_kept, less_than,
    logic, or_nothing, product, sbc, step_tagged, sub, sum_tagged, wide,
};
use crate::bits::{bit_loaded, bit_stored, swapped};
use crate::frames::{framed_adc, framed_add, framed_step, framed_sub};
use crate::registers::{bits, register_set, value};
use crate::transfer::pair_copied;
use abs_state::{AbsByte, AbsState};
use avr_model::instruction::{BinaryOp, ImmediateOp, Instr, Register, UnaryOp};
use avr_model::operation::{Logic, Mul, Shift};
use bit_domain::{Tri, TriByte};
use local_rules::{Computed, SpView};
use sp_domain::Tag;

// The result of an instruction of a register and a byte; `line` says whether the site has a `frame` line.
fn immediate(
    view: SpView,
    line: bool,
    state: &AbsState,
    op: ImmediateOp,
    operands: (Register, u8),
) -> Computed
    ensures { result ≡ immediate_at view line state.now op operands.0 operands.1 }
{
    let (d, number) = operands;
    let a = bits(state, d);
    let b = TriByte::of(number);
    match op {
        ImmediateOp::Cpi => compare(state, (a, b), NO_BORROW, less_than(d, Some(number))),
        ImmediateOp::Sbci => sbc(view, state, d, b, Some(number)),
        ImmediateOp::Subi if line => framed_sub(state, d, b, Some(number)),
        ImmediateOp::Subi => sub(state, d, a, b, Some(number)),
        ImmediateOp::Ori => logic(state, Logic::Or, d, (a, b), false),
        ImmediateOp::Andi => logic(state, Logic::And, d, (a, b), false),
        ImmediateOp::Ldi => register_set(state, d, AbsByte::known(number)),
    }
}

// The result of an instruction of one register; `line` says whether the site has a `frame` line.
fn unary(state: &AbsState, line: bool, op: UnaryOp, d: Register) -> Computed
    ensures { result ≡ unary_at line state.now op d }
{
    let (a, flags) = (bits(state, d), state.flags.bits);
    match op {
        UnaryOp::Com => byte_set(state, d, abs_alu::com(a, flags)),
        UnaryOp::Neg => difference(state, d, (TriByte::of(0), a), NO_BORROW, UNTAGGED),
        UnaryOp::Swap => register_set(state, d, AbsByte::untagged(swapped(a))),
        UnaryOp::Inc if line => framed_step(state, true, d),
        UnaryOp::Inc => step_tagged(state, true, d, Tag::None),
        UnaryOp::Asr => byte_set(state, d, abs_alu::shift(Shift::Asr, a, flags)),
        UnaryOp::Lsr => byte_set(state, d, abs_alu::shift(Shift::Lsr, a, flags)),
        UnaryOp::Ror => byte_set(state, d, abs_alu::shift(Shift::Ror, a, flags)),
        UnaryOp::Dec if line => framed_step(state, false, d),
        UnaryOp::Dec => step_tagged(state, false, d, Tag::None),
    }
}

// The result of an instruction of two registers. None for `cpse`, which skips.
fn binary(
    view: SpView,
    state: &AbsState,
    op: BinaryOp,
    d: Register,
    r: Register,
) -> Option<Computed>
    ensures { result ≡ binary_after view state.now op d r }
{
    let (a, b) = (bits(state, d), bits(state, r));
    let carry = carry_bit(state);
    // A register less itself, or exclusive or with itself, is 0, whatever it holds.
    let (from, other) = (or_nothing(d, r, a), or_nothing(d, r, b));
    match op {
        BinaryOp::Cpc => {
            let says = less_kept(a.constant(), b.constant(), state.flags.carry);
            let borrow = BorrowIn {
                bit: carry,
                keep_zero: true,
            };
            Some(compare(state, (a, b), borrow, says))
        },
        BinaryOp::Sbc => Some(sbc(view, state, d, b, b.constant())),
        BinaryOp::Add => Some(sum_tagged(state, d, b, Tri::Zero, UNTAGGED)),
        BinaryOp::Cpse => None,
        BinaryOp::Cp => {
            let says = less_than(d, b.constant());
            Some(compare(state, (a, b), NO_BORROW, says))
        },
        BinaryOp::Sub => Some(sub(state, d, from, other, b.constant())),
        BinaryOp::Adc => Some(sum_tagged(state, d, b, carry, UNTAGGED)),
        BinaryOp::And => Some(logic(state, Logic::And, d, (a, b), d == r)),
        BinaryOp::Eor => Some(logic(state, Logic::Eor, d, (from, other), false)),
        BinaryOp::Or => Some(logic(state, Logic::Or, d, (a, b), d == r)),
        BinaryOp::Mov => Some(register_set(state, d, value(state, r))),
        BinaryOp::Mul => Some(product(state, Mul::Mul, d, r)),
    }
}

/// The result of an instruction of two registers; `line` says whether the site has a `frame` line. None for `cpse`, which skips.
pub fn binary_at(
    view: SpView,
    line: bool,
    state: &AbsState,
    op: BinaryOp,
    operands: (Register, Register),
) -> Option<Computed>
    ensures { result ≡ binary_at view line state.now op operands.0 operands.1 }
{
    let (d, r) = operands;
    if !line || d == r {
        return binary(view, state, op, d, r);
    }
    match op {
        BinaryOp::Add => Some(framed_add(state, d, r)),
        BinaryOp::Adc => Some(framed_adc(view, state, d, r)),
        BinaryOp::Sub => {
            let b = bits(state, r);
            Some(framed_sub(state, d, b, b.constant()))
        }
        _ => binary(view, state, op, d, r),
    }
}

/// The result of an instruction that only sets registers and flags; `line` says whether the site has a `frame` line. None for other
/// instructions, and for loads.
pub fn computed_by(view: SpView, line: bool, state: &AbsState, instr: &Instr) -> Option<Computed>
    ensures value { result ≡ sections.computed_by view line state.now instr.now }
    ensures row { IsSectionRow view line state.now instr.now result }
{
    // one place for the result of all instructions: each further one would be cleared at each call
    let computed = match instr {
        Instr::Movw(d, r) => pair_copied(state, d.doubled(), r.doubled()),
        Instr::Muls(d, r) => product(state, Mul::Muls, d.widened(), r.widened()),
        Instr::Mulsu(d, r) => product(state, Mul::Mulsu, d.widened(), r.widened()),
        Instr::Fmul(d, r) => product(state, Mul::Fmul, d.widened(), r.widened()),
        Instr::Fmuls(d, r) => product(state, Mul::Fmuls, d.widened(), r.widened()),
        Instr::Fmulsu(d, r) => product(state, Mul::Fmulsu, d.widened(), r.widened()),
        Instr::Immediate(op, d, number) => {
            immediate(view, line, state, *op, (d.widened(), *number))
        }
        Instr::Unary(op, d) => unary(state, line, *op, *d),
        Instr::Adiw(d, number) => wide(view, state, true, d.doubled(), number.get() as u8),
        Instr::Sbiw(d, number) => wide(view, state, false, d.doubled(), number.get() as u8),
        Instr::Bld(d, bit) => bit_loaded(state, *d, *bit),
        Instr::Bst(d, bit) => bit_stored(state, *d, *bit),
        _ => return None,
    };
    Some(computed)
}
