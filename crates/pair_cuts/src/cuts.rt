//! States after a test with a known outcome.

ghost use Rattle.std.specs.Prelude.{◌≡◌, ◌<◌};
ghost use Rattle.std.specs.Int.{from_bool};
ghost use Rattle.bit_domain.specs.Tri.{permits};
ghost use Rattle.abs_state.specs.Values.{set_of};
ghost use Rattle.abs_state.specs.Frames.{with_tag};
ghost use Rattle.abs_state.specs.PairBytes.{left_in};
ghost use Rattle.pair_cuts.specs.Bytes.{ranged, byte_left};
ghost use Rattle.pair_cuts.specs.Cuts.{same_cut, below_part, less_cut, zero_cut, side_place, side_range, pair_place, pair_range, both_cut, compare_cut, bit_known, flag_cut, with_bit, bit_cut, equal_cut, pick_cut};

use crate::outcomes::{Outcome, off};
use crate::places::{CutPlace, bytes_at, facts_of, narrow_at, narrow_to, put, range_at, value_at};
use abs_state::{AbsByte, AbsState, PairBytes, Registers};
use bit_domain::{Tri, TriByte, equal};
use pair_domain::{CompareTag, Interval, Side, ZeroTag};
use sp_domain::CarryTag;

// ---- a number that is k, or isn't

// Cuts a place to the number `k` if `equal`, otherwise to the other numbers.
fn same_cut(state: &mut AbsState, place: CutPlace, equal: bool, k: u8) -> bool
    ensures { left_in result state.new ≡ same_cut place equal k state.old }
{
    let just = Interval {
        low: u16::from(k),
        high: u16::from(k),
    };
    let left = if equal {
        Some(just)
    } else {
        off(range_at(state, place), just)
    };
    narrow_to(state, place, left)
}

// ---- flags

// The part of a byte's range below `k`, or from `k` on.
fn below_part(below: bool, k: u8) -> Option<Interval>
    ensures { result ≡ below_part below k }
{
    let k = u16::from(k);
    if !below {
        return Some(Interval { low: k, high: 255 });
    }
    if k == 0 {
        return None;
    }
    Some(Interval {
        low: 0,
        high: k - 1,
    })
}

// Cuts by C, which says whether a register is below a number.
fn less_cut(state: &mut AbsState, n: u8, on: bool) -> bool
    ensures { left_in result state.new ≡ less_cut n on state.old }
{
    if n != 0 {
        return true;
    }
    match state.flags.carry {
        CarryTag::Less(r, k) => narrow_to(state, CutPlace::Byte(r), below_part(on, k)),
        CarryTag::None | CarryTag::Borrow(_, _) | CarryTag::Sum(_, _) => true,
    }
}

// Cuts by Z, which says whether a register or a pair is 0.
fn zero_cut(state: &mut AbsState, n: u8, on: bool) -> bool
    ensures { left_in result state.new ≡ zero_cut n on state.old }
{
    if n != 1 {
        return true;
    }
    let facts = facts_of(state);
    match facts.zero {
        ZeroTag::None => true,
        ZeroTag::Byte(x) => same_cut(state, CutPlace::Byte(x), on, 0),
        ZeroTag::Pair(r) => same_cut(state, CutPlace::Pair(r), on, 0),
    }
}

// The right side of a comparison of bytes.
fn side_place(side: Side) -> CutPlace
    ensures { result ≡ side_place side }
{
    match side {
        Side::Byte(_) => CutPlace::Neither,
        Side::Register(q) => CutPlace::Byte(q),
    }
}

// The least and the greatest byte of a value.
fn side_range(registers: &Registers, side: Side) -> (u8, u8)
    ensures { ranged result.0 result.1 ≡ side_range registers.now side }
{
    match side {
        Side::Byte(k) => (k, k),
        Side::Register(q) => {
            let value = value_at(registers, q);
            (value.low, value.high)
        }
    }
}

// The right side of a comparison of pairs: a pair if its two registers are one.
fn pair_place(side: Side, p: u8) -> CutPlace
    ensures { result ≡ pair_place side p }
{
    match side {
        Side::Register(q) if q % 2 == 0 && p == q + 1 => CutPlace::Pair(q),
        _ => CutPlace::Neither,
    }
}

// The interval of a side: of a pair the known one, otherwise from the least bytes to the greatest.
fn pair_range(state: &AbsState, place: CutPlace, side: Side, p: u8) -> Interval
    ensures { result ≡ pair_range state.now place side p }
{
    match place {
        CutPlace::Pair(q) => range_at(state, CutPlace::Pair(q)),
        CutPlace::Neither | CutPlace::Byte(_) => {
            let (least, most) = side_range(&state.registers, side);
            let high = value_at(&state.registers, p);
            Interval {
                low: u16::from(least) + 256 * u16::from(high.low),
                high: u16::from(most) + 256 * u16::from(high.high),
            }
        }
    }
}

// Cuts both sides of a comparison, whose ranges are `x` and `y`, the left one first.
fn both_cut(
    state: &mut AbsState,
    outcome: Outcome,
    half: u16,
    left: CutPlace,
    right: CutPlace,
    x: Interval,
    y: Interval,
) -> bool
    requires { 0 < half }
    ensures { left_in result state.new ≡ both_cut outcome half left right x y state.old }
{
    let (Some(i), Some(j)) = (outcome.left(half, x, y), outcome.right(x, y)) else {
        return false;
    };
    if !narrow_at(state, left, i) {
        return false;
    }
    narrow_at(state, right, j)
}

// Cuts by C, Z and S of a comparison of two sides.
fn compare_cut(state: &mut AbsState, n: u8, on: bool) -> bool
    ensures { left_in result state.new ≡ compare_cut n on state.old }
{
    let Some(outcome) = Outcome::of(n, on) else {
        return true;
    };
    let facts = facts_of(state);
    match facts.compare {
        CompareTag::None => true,
        CompareTag::Byte(x, y) => {
            let left = range_at(state, CutPlace::Byte(x));
            let (least, most) = side_range(&state.registers, y);
            let right = Interval {
                low: u16::from(least),
                high: u16::from(most),
            };
            both_cut(
                state,
                outcome,
                128,
                CutPlace::Byte(x),
                side_place(y),
                left,
                right,
            )
        }
        CompareTag::Pair(r, y, p) => {
            let place = pair_place(y, p);
            let left = range_at(state, CutPlace::Pair(r));
            let right = pair_range(state, place, y, p);
            both_cut(
                state,
                outcome,
                0x8000,
                CutPlace::Pair(r),
                place,
                left,
                right,
            )
        }
    }
}

// Whether a three-valued bit may be on, or off.
fn may_be(bit: Tri, on: bool) -> bool
    ensures { result ≡ permits bit (from_bool on) }
{
    match bit {
        Tri::Zero => !on,
        Tri::One => on,
        Tri::Any => true,
    }
}

// The bits with bit `i`, from 0 to 7, on or off; `None` if it is known to be the other.
fn bit_known(bits: TriByte, i: u8, on: bool) -> Option<TriByte>
    requires { i < 8 }
    ensures { result ≡ bit_known bits i on }
{
    if may_be(bits.bit(i), on) {
        let bit = if on { Tri::One } else { Tri::Zero };
        Some(bits.with(i, bit))
    } else {
        None
    }
}

/// Cuts a state to the outcome that flag `n`, from 0 to 6, is on or off, by the tags of flags: what C says of a register, Z of a register
/// or pair, and C, Z and S of two sides. Returns whether anything is left; otherwise the state is of no use. Source: own.
pub fn flag_cut(state: &mut AbsState, n: u8, on: bool) -> bool
    requires { n < 7 }
    ensures { left_in result state.new ≡ flag_cut n on state.old }
{
    let Some(bits) = bit_known(state.flags.bits, n, on) else {
        return false;
    };
    if !less_cut(state, n, on) {
        return false;
    }
    if !zero_cut(state, n, on) {
        return false;
    }
    if !compare_cut(state, n, on) {
        return false;
    }
    state.flags.bits = bits;
    true
}

// ---- one bit of a register

// The byte with bit `bit`, from 0 to 7, on or off.
fn with_bit(value: AbsByte, bit: u8, on: bool) -> Option<AbsByte>
    requires { bit < 8 }
    ensures { result ≡ with_tag value.tag (with_bit bit on (set_of value)) }
{
    let bits = bit_known(value.bits, bit, on)?;
    AbsByte { bits, ..value }.narrow(0, 255)
}

// The pair with this bit of register `r` on or off.
fn byte_with_bit(pair: PairBytes, r: u8, bit: u8, on: bool) -> Option<PairBytes>
    requires { bit < 8 }
    ensures { result ≡ byte_left r (with_bit bit on) pair }
{
    if r % 2 == 0 {
        let low = with_bit(pair.low, bit, on)?;
        PairBytes { low, ..pair }.cut()
    } else {
        let high = with_bit(pair.high, bit, on)?;
        PairBytes { high, ..pair }.cut()
    }
}

/// Cuts a state to the outcome that bit `bit`, from 0 to 7, of register `r`, from 0 to 31, is on or off. Returns whether anything is left;
/// otherwise the state is of no use. Source: own.
pub fn bit_cut(state: &mut AbsState, r: u8, bit: u8, on: bool) -> bool
    requires { bit < 8 }
    ensures { left_in result state.new ≡ bit_cut r bit on state.old }
{
    let pair = bytes_at(state, r / 2);
    put(state, r / 2, byte_with_bit(pair, r, bit, on))
}

// ---- `cpse`

/// Cuts a state to the outcome that registers `d` and `r`, from 0 to 31, are equal or not; a known one cuts the other. Returns whether
/// anything is left; otherwise the state is of no use. Source: own.
pub fn equal_cut(state: &mut AbsState, d: u8, r: u8, are_equal: bool) -> bool
    ensures { left_in result state.new ≡ equal_cut d r are_equal state.old }
{
    let left = value_at(&state.registers, d);
    let right = value_at(&state.registers, r);
    if !may_be(equal(left.bits, right.bits), are_equal) {
        return false;
    }
    match (right.bits.constant(), left.bits.constant()) {
        (Some(k), _) => same_cut(state, CutPlace::Byte(d), are_equal, k),
        (None, Some(k)) => same_cut(state, CutPlace::Byte(r), are_equal, k),
        (None, None) => true,
    }
}

// ---- the pick of a jump table's entry

/// Picks this byte as the value of register 30, whose tag stays, and cuts the interval of its pair. Returns whether anything is left;
/// otherwise the state is of no use. Source: own.
pub fn pick_cut(state: &mut AbsState, byte: u8) -> bool
    ensures { left_in result state.new ≡ pick_cut byte state.old }
{
    let tag = state.registers[30].tag;
    state.registers[30] = AbsByte::of_bits(tag, TriByte::of(byte));
    state.cut_pair(15)
}
