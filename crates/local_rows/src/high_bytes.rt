//! The high byte of an address in the frame.

ghost use Rattle.std.specs.Prelude.{◌≡◌};
ghost use Rattle.local_rules.specs.HighBytes.{low_number, carry_number, is_high_of, seen_high};
ghost use Rattle.local_rules.specs.Registers as registers;

use crate::registers::pair;
use abs_state::{AbsByte, AbsState};
use avr_model::instruction::LowRegister;
use local_rules::SpView;
use sp_domain::{CarryTag, Tag};

// The j of a low byte of base - j.
fn low_number(tag: Tag) -> Option<u8>
    ensures { result ≡ low_number tag }
{
    match tag {
        Tag::SpLo(j) => Some(j),
        Tag::None | Tag::EntryFlags | Tag::Entry(_) | Tag::SpHi(_) => None,
    }
}

// The j of the low byte that a carry or borrow is of.
fn carry_number(carry: CarryTag) -> Option<u8>
    ensures { result ≡ carry_number carry }
{
    match carry {
        CarryTag::Borrow(j, _) | CarryTag::Sum(j, _) => Some(j),
        CarryTag::None | CarryTag::Less(_, _) => None,
    }
}

// Whether the value is the high byte of base - j without SPH.
fn is_high_of(offset: u16, j: u8, value: AbsByte) -> bool
    ensures { result ≡ is_high_of offset j value }
{
    value.tag == Tag::SpHi(u16::from(j))
        || (value.bits.constant() == Some(0) && u16::from(j) <= offset)
}

// The tag of a high byte whose low byte is that of base - j.
fn seen_high(view: SpView, j: Option<u8>, value: AbsByte) -> Tag
    ensures { result ≡ seen_high view j value }
{
    if view.high {
        return value.tag;
    }
    match j {
        Some(j) if is_high_of(view.offset, j, value) => Tag::SpHi(u16::from(j)),
        _ => Tag::None,
    }
}

/// The tags of registers `r` and `r + 1`, that of the high byte beside the low one.
pub fn pair_tags(view: SpView, state: &AbsState, r: LowRegister) -> (Tag, Tag)
    ensures low { result.0 ≡ (registers.value state.now r).tag }
    ensures high { result.1 ≡ registers.high_tag_of view state.now r }
{
    let (low, high) = pair(state, r);
    (low.tag, seen_high(view, low_number(low.tag), high))
}

// The tag of a high byte beside the low byte that the carry is of.
pub(crate) fn tag_by_carry(view: SpView, carry: CarryTag, value: AbsByte) -> Tag
    ensures { result ≡ seen_high view (carry_number carry) value }
{
    seen_high(view, carry_number(carry), value)
}
