//! Arithmetic and logic: sums, differences, products and bit operations on two bytes. A result has a tag only if a rule here says so.
//! Source: own; bits and flags are those of `abs_alu`.

ghost use Rattle.std.specs.Prelude.{◌≡◌, slice_set};
ghost use Rattle.sp_domain.specs.declared.tags.CarryTag.TheVariants.{None};
ghost use Rattle.abs_state.specs.Values.{untagged};
ghost use Rattle.local_rules.specs.Registers.{both_set, with_carry, sum_tagged, step_tagged, compare_after, difference_after, sub_after, sbc_after, logic_after, low_tag, borrow_tag, or_nothing, less_than, less_kept, carry_bit, product_after, wide_after};

use crate::bits::CARRY;
use crate::high_bytes::{pair_tags, tag_by_carry};
use crate::registers::{bits, pair, set, set_pair, value, with_carry};
use abs_state::{AbsByte, AbsState};
use avr_model::instruction::{LowRegister, Register};
use avr_model::operation::{Logic, Mul};
use bit_domain::{Tri, TriByte};
use local_rules::{Computed, SpView};
use sp_domain::{CarryTag, Tag, move_pair, sub_high, sub_low};

// No tags of result and carry.
pub(crate) const UNTAGGED: (Tag, CarryTag) = (Tag::None, CarryTag::None);

/// The carry flag.
pub fn carry_bit(state: &AbsState) -> Tri
    ensures { result ≡ carry_bit state.now }
{
    state.flags.bits.bit(CARRY)
}

// Register `d` plus a byte and a carry, with the tags of result and carry.
pub(crate) fn sum_tagged(
    state: &AbsState,
    d: Register,
    other: TriByte,
    carry: Tri,
    tags: (Tag, CarryTag),
) -> Computed
    ensures { result ≡ sum_tagged state.now d other carry tags }
{
    let (tag, says) = tags;
    let (sum, flags) = abs_alu::add(bits(state, d), other, carry, state.flags.bits);
    Computed {
        registers: set(&state.registers, d, AbsByte::of_bits(tag, sum)),
        flags: with_carry(flags, says),
    }
}

// The inputs of a difference from that of the byte below.
#[derive(Clone, Copy)]
pub(crate) struct BorrowIn {
    // The borrow.
    pub bit: Tri,
    // Whether Z keeps its value for a result of 0.
    pub keep_zero: bool,
}

// No borrow from below: it is 0, and Z depends on the result alone.
pub(crate) const NO_BORROW: BorrowIn = BorrowIn {
    bit: Tri::Zero,
    keep_zero: false,
};

// A comparison: a difference that sets only the flags and the carry tag.
pub(crate) fn compare(
    state: &AbsState,
    operands: (TriByte, TriByte),
    borrow: BorrowIn,
    says: CarryTag,
) -> Computed
    ensures { result ≡ compare_after state.now operands (borrow.bit, borrow.keep_zero) says }
{
    let (a, b) = operands;
    let (_, flags) = abs_alu::sub(a, b, borrow.bit, borrow.keep_zero, state.flags.bits);
    Computed {
        registers: state.registers,
        flags: with_carry(flags, says),
    }
}

// The carry tag after register `d` was compared with a number: the register is below it.
pub(crate) fn less_than(d: Register, number: Option<u8>) -> CarryTag
    ensures { result ≡ less_than d number }
{
    match number {
        Some(number) => CarryTag::Less(d.get() as u8, number),
        None => CarryTag::None,
    }
}

// The carry tag of a register is kept if two equal numbers are compared with a borrow.
pub(crate) fn less_kept(a: Option<u8>, b: Option<u8>, carry: CarryTag) -> CarryTag
    ensures { result ≡ less_kept a b carry }
{
    match (a, b, carry) {
        (Some(a), Some(b), CarryTag::Less(_, _)) if a == b => carry,
        _ => CarryTag::None,
    }
}

// A difference that goes to register `d`, with the tags of result and borrow.
pub(crate) fn difference(
    state: &AbsState,
    d: Register,
    operands: (TriByte, TriByte),
    borrow: BorrowIn,
    tags: (Tag, CarryTag),
) -> Computed
    ensures { result ≡ difference_after state.now d operands (borrow.bit, borrow.keep_zero) tags }
{
    let (a, b) = operands;
    let (tag, carry) = tags;
    let (difference, flags) = abs_alu::sub(a, b, borrow.bit, borrow.keep_zero, state.flags.bits);
    Computed {
        registers: set(&state.registers, d, AbsByte::of_bits(tag, difference)),
        flags: with_carry(flags, carry),
    }
}

// The tags of a low byte less a number, if it is known, and of the borrow.
pub(crate) fn low_tags(tag: Tag, number: Option<u8>) -> (Tag, CarryTag)
    ensures tag { result.0 ≡ low_tag tag number }
    ensures borrow { result.1 ≡ borrow_tag tag number }
{
    match number {
        Some(number) => sub_low(tag, number),
        None => (Tag::None, CarryTag::None),
    }
}

// Register `d`, with bits `a`, less a byte, which may be a known number.
pub(crate) fn sub(
    state: &AbsState,
    d: Register,
    a: TriByte,
    b: TriByte,
    number: Option<u8>,
) -> Computed
    ensures { result ≡ sub_after state.now d a b number }
{
    let tags = low_tags(value(state, d).tag, number);
    difference(state, d, (a, b), NO_BORROW, tags)
}

// Register `d` less a byte, which may be a known number, and the carry.
pub(crate) fn sbc(
    view: SpView,
    state: &AbsState,
    d: Register,
    b: TriByte,
    number: Option<u8>,
) -> Computed
    ensures { result ≡ sbc_after view state.now d b number }
{
    let (value, carry) = (value(state, d), state.flags.carry);
    let tag = match number {
        Some(number) => sub_high(tag_by_carry(view, carry, value), number, carry),
        None => Tag::None,
    };
    let borrow = BorrowIn {
        bit: carry_bit(state),
        keep_zero: true,
    };
    difference(state, d, (value.bits, b), borrow, (tag, CarryTag::None))
}

// The bits of a register in a difference or exclusive or with another: 0 if both are the same register.
pub(crate) fn or_nothing(d: Register, r: Register, bits: TriByte) -> TriByte
    ensures { result ≡ or_nothing d r bits }
{
    if d == r { TriByte::of(0) } else { bits }
}

// AND, OR or EOR of two bytes, which goes to register `d`. AND and OR of a register with itself keep the value.
pub(crate) fn logic(
    state: &AbsState,
    op: Logic,
    d: Register,
    operands: (TriByte, TriByte),
    same: bool,
) -> Computed
    ensures { result ≡ logic_after state.now op d operands same }
{
    let (a, b) = operands;
    let (result, flags) = abs_alu::logic(op, a, b, state.flags.bits);
    let kept = if same {
        value(state, d)
    } else {
        AbsByte::untagged(result)
    };
    Computed {
        registers: set(&state.registers, d, kept),
        flags: with_carry(flags, state.flags.carry),
    }
}

// Register `d` plus 1 if `up`, else less 1, with the tag of the result.
pub(crate) fn step_tagged(state: &AbsState, up: bool, d: Register, tag: Tag) -> Computed
    ensures { result ≡ step_tagged state.now up d tag }
{
    let (result, flags) = abs_alu::step_one(up, bits(state, d), state.flags.bits);
    Computed {
        registers: set(&state.registers, d, AbsByte::of_bits(tag, result)),
        flags: with_carry(flags, state.flags.carry),
    }
}

// Register `d` gets a byte without a tag, and the carry tag ends.
pub(crate) fn byte_set(state: &AbsState, d: Register, after: (TriByte, TriByte)) -> Computed
    ensures { result ≡ both_set (slice_set state.now.registers d (untagged after.0)) (with_carry after.1 None) }
{
    let (byte, flags) = after;
    Computed {
        registers: set(&state.registers, d, AbsByte::untagged(byte)),
        flags: with_carry(flags, CarryTag::None),
    }
}

// The product of registers `d` and `r` goes to registers 0 and 1.
pub(crate) fn product(state: &AbsState, op: Mul, d: Register, r: Register) -> Computed
    ensures { result ≡ product_after state.now op d r }
{
    let ((low, high), flags) = abs_alu::mul(op, bits(state, d), bits(state, r), state.flags.bits);
    let (low, high) = (AbsByte::untagged(low), AbsByte::untagged(high));
    Computed {
        registers: set_pair(&state.registers, LowRegister::new(0), low, high),
        flags: with_carry(flags, CarryTag::None),
    }
}

// `adiw` of registers `d` and `d + 1` if `up`, else `sbiw`.
pub(crate) fn wide(view: SpView, state: &AbsState, up: bool, d: LowRegister, number: u8) -> Computed
    ensures { result ≡ wide_after view state.now up d number }
{
    let (low, high) = pair(state, d);
    let (bits, flags) = abs_alu::wide(up, (low.bits, high.bits), number, state.flags.bits);
    let number = u16::from(number);
    let down = if up {
        0u16.wrapping_sub(number)
    } else {
        number
    };
    let (low_tag, high_tag) = pair_tags(view, state, d);
    let (low_tag, high_tag) = move_pair(low_tag, high_tag, down);
    let (low, high) = (
        AbsByte::of_bits(low_tag, bits.0),
        AbsByte::of_bits(high_tag, bits.1),
    );
    Computed {
        registers: set_pair(&state.registers, d, low, high),
        flags: with_carry(flags, CarryTag::None),
    }
}
