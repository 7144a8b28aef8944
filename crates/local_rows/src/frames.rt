//! Results of instructions at a site with a `frame` line: as without it, with tags that follow a compiler's moves of the frame pointer
//! byte by byte. Source: own.

ghost use Rattle.std.specs.Prelude.{◌≡◌};
ghost use Rattle.local_rules.specs.FrameLines.{is_frame_pointer, number_added, framed_add, framed_adc, framed_sub, framed_step};
ghost use Rattle.local_rules.specs.FrameLines as frames;
ghost use Rattle.local_rules.specs.Registers as registers;

use crate::arithmetic::{
    NO_BORROW, UNTAGGED, carry_bit, difference, low_tags, step_tagged, sum_tagged,
};
use crate::high_bytes::tag_by_carry;
use crate::registers::{bits, value};
use abs_state::{AbsByte, AbsState};
use avr_model::instruction::Register;
use bit_domain::{Tri, TriByte};
use local_rules::{Computed, SpView};
use sp_domain::{CarryTag, Tag, add_byte, add_high, move_high, sub_byte};

// Whether the register belongs to the frame pointer, by the convention of compilers.
fn is_frame_pointer(r: Register) -> bool
    ensures { result ≡ is_frame_pointer r }
{
    r.get() == 28 || r.get() == 29
}

// The followed register, and the number of the other, if it is known.
fn followed(state: &AbsState, d: Register, r: Register) -> (AbsByte, Option<u8>)
    ensures followed { result.0 ≡ registers.value state.now (frames.followed d r) }
    ensures number { result.1 ≡ number_added state.now d r }
{
    let (followed, added) = if is_frame_pointer(r) && !is_frame_pointer(d) {
        (r, d)
    } else {
        (d, r)
    };
    (value(state, followed), bits(state, added).constant())
}

// `add` of registers `d` and `r`.
pub(crate) fn framed_add(state: &AbsState, d: Register, r: Register) -> Computed
    ensures { result ≡ framed_add state.now d r }
{
    let (followed, number) = followed(state, d, r);
    let tags = match number {
        Some(number) => add_byte(followed.tag, number),
        None => UNTAGGED,
    };
    sum_tagged(state, d, bits(state, r), Tri::Zero, tags)
}

// `adc` of registers `d` and `r`.
pub(crate) fn framed_adc(view: SpView, state: &AbsState, d: Register, r: Register) -> Computed
    ensures { result ≡ framed_adc view state.now d r }
{
    let (followed, number) = followed(state, d, r);
    let carry = state.flags.carry;
    let high = match number {
        Some(number) => add_high(tag_by_carry(view, carry, followed), number, carry),
        None => Tag::None,
    };
    let tags = (high, CarryTag::None);
    sum_tagged(state, d, bits(state, r), carry_bit(state), tags)
}

// Register `d` less a byte, which may be a known number.
pub(crate) fn framed_sub(state: &AbsState, d: Register, b: TriByte, number: Option<u8>) -> Computed
    ensures { result ≡ framed_sub state.now d b number }
{
    let value = value(state, d);
    let (_, borrow) = low_tags(value.tag, number);
    let tag = match number {
        Some(number) => sub_byte(value.tag, number),
        None => Tag::None,
    };
    difference(state, d, (value.bits, b), NO_BORROW, (tag, borrow))
}

// Register `d` plus 1 if `up`, else less 1.
pub(crate) fn framed_step(state: &AbsState, up: bool, d: Register) -> Computed
    ensures { result ≡ framed_step state.now up d }
{
    step_tagged(state, up, d, move_high(value(state, d).tag, up, 1))
}
