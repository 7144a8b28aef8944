//! A compiler's frame set-up in tags and on bytes, all pairs of some tags, and lists of slots.

use row_tests::WorkedRow;
use sp_domain::{
    CarryTag, Slot, Slots, Tag, add_byte, add_high, frame, move_high, move_pair, sub_byte,
    sub_high, sub_low,
};
use std::alloc::Global;

/// A tag, and its number.
pub struct TagRow(u8, Tag);

pub static TAGS: [(&str, &[TagRow]); 1] = [("tag", ALL_TAGS)];

const ALL_TAGS: &[TagRow] = &[
    TagRow(0, Tag::None),
    TagRow(1, Tag::Entry(2)),
    TagRow(2, Tag::Entry(3)),
    TagRow(3, Tag::EntryFlags),
    TagRow(4, Tag::SpLo(2)),
    TagRow(5, Tag::SpLo(3)),
    TagRow(6, Tag::SpHi(2)),
    TagRow(7, Tag::SpHi(258)),
];

// Whether two tags, equal or not, are ordered and joined as expected.
fn is_pair(t: Tag, u: Tag, same: bool) -> bool {
    let both = if same { t } else { Tag::None };
    t.le(u) == (same || u == Tag::None) && t.join(u) == both
}

// Whether a tag's pairs with itself and with none are no pair of a frame.
fn is_nowhere(t: Tag) -> bool {
    frame(t, t).is_none() && frame(Tag::None, t).is_none() && frame(t, Tag::None).is_none()
}

impl WorkedRow for TagRow {
    // Whether this tag is within itself and none alone.
    fn holds(&self, _alloc: Global) -> bool {
        for other in ALL_TAGS {
            if !is_pair(self.1, other.1, self.0 == other.0) {
                return false;
            }
        }
        is_nowhere(self.1)
    }
}

/// A carry's tag, and its number.
pub struct CarryRow(u8, CarryTag);

pub static CARRY_TAGS: [(&str, &[CarryRow]); 1] = [("carry tag", ALL_CARRY_TAGS)];

const ALL_CARRY_TAGS: &[CarryRow] = &[
    CarryRow(0, CarryTag::None),
    CarryRow(1, CarryTag::Borrow(2, 0)),
    CarryRow(2, CarryTag::Borrow(2, 1)),
    CarryRow(3, CarryTag::Borrow(3, 0)),
    CarryRow(4, CarryTag::Sum(2, 0)),
    CarryRow(5, CarryTag::Sum(2, 1)),
    CarryRow(6, CarryTag::Sum(3, 0)),
    CarryRow(7, CarryTag::Less(2, 0)),
    CarryRow(8, CarryTag::Less(2, 1)),
    CarryRow(9, CarryTag::Less(3, 0)),
];

fn is_carry_pair(c: CarryTag, d: CarryTag, same: bool) -> bool {
    let both = if same { c } else { CarryTag::None };
    c.le(d) == (same || d == CarryTag::None) && c.join(d) == both
}

impl WorkedRow for CarryRow {
    fn holds(&self, _alloc: Global) -> bool {
        for other in ALL_CARRY_TAGS {
            if !is_carry_pair(self.1, other.1, self.0 == other.0) {
                return false;
            }
        }
        true
    }
}

/// The tags of a pair's bytes, and its k.
pub struct FrameRow(Tag, Tag, Option<u16>);

pub static FRAMES: [(&str, &[FrameRow]); 1] = [(
    "frame",
    &[
        FrameRow(Tag::SpLo(2), Tag::SpHi(2), Some(2)),
        FrameRow(Tag::SpLo(2), Tag::SpHi(258), Some(258)),
        FrameRow(Tag::SpLo(255), Tag::SpHi(65535), Some(65535)),
        FrameRow(Tag::SpLo(3), Tag::SpHi(2), None),
        FrameRow(Tag::SpLo(2), Tag::SpHi(3), None),
        FrameRow(Tag::SpLo(0), Tag::SpHi(255), None),
        FrameRow(Tag::SpHi(2), Tag::SpLo(2), None),
        FrameRow(Tag::SpHi(258), Tag::SpLo(2), None),
        FrameRow(Tag::SpHi(65535), Tag::SpLo(255), None),
        FrameRow(Tag::SpHi(2), Tag::SpLo(3), None),
        FrameRow(Tag::SpHi(3), Tag::SpLo(2), None),
        FrameRow(Tag::SpHi(255), Tag::SpLo(0), None),
        FrameRow(Tag::SpLo(2), Tag::SpHi(258), Some(258)),
        FrameRow(Tag::SpLo(242), Tag::SpHi(65522), Some(65522)),
    ],
)];

impl WorkedRow for FrameRow {
    fn holds(&self, _alloc: Global) -> bool {
        frame(self.0, self.1) == self.2
    }
}

// A call on the tag of a byte or of a pair.
enum Call {
    // A pair moves down by this much: the tags afterwards.
    Move(u16),
    // This much is subtracted from a low byte: the tags of the difference and of the borrow.
    Low(u8),
    // This much is subtracted from a high byte, with the tag of the borrow: the tag of the difference.
    High(u8, CarryTag),
    // This much is added to a byte: the tags of the sum and of the carry.
    Add(u8),
    // This much is subtracted from a byte: the tag of the difference.
    Less(u8),
    // This much is added to a high byte, with the tag of the carry: the tag of the sum.
    Raise(u8, CarryTag),
    // A high byte moves up or down by this much: the tag afterwards.
    Page(bool, u8),
}

/// A call, the tag of the byte or those of the low and the high byte, and the tags of the answer.
pub struct Row(Call, Tag, Tag, (Tag, Tag, CarryTag));

pub static CALLS: [(&str, &[Row]); 1] = [(
    "byte of a frame",
    &[
        // `sbiw` by 32, past a multiple of 256, `adiw` by 32, above the base, around, and not at all
        Row(
            Call::Move(32),
            Tag::SpLo(2),
            Tag::SpHi(2),
            (Tag::SpLo(34), Tag::SpHi(34), CarryTag::None),
        ),
        Row(
            Call::Move(10),
            Tag::SpLo(250),
            Tag::SpHi(250),
            (Tag::SpLo(4), Tag::SpHi(260), CarryTag::None),
        ),
        Row(
            Call::Move(65504),
            Tag::SpLo(34),
            Tag::SpHi(34),
            (Tag::SpLo(2), Tag::SpHi(2), CarryTag::None),
        ),
        Row(
            Call::Move(65533),
            Tag::SpLo(2),
            Tag::SpHi(2),
            (Tag::SpLo(255), Tag::SpHi(65535), CarryTag::None),
        ),
        Row(
            Call::Move(1),
            Tag::SpLo(255),
            Tag::SpHi(65535),
            (Tag::SpLo(0), Tag::SpHi(0), CarryTag::None),
        ),
        Row(
            Call::Move(0),
            Tag::SpLo(7),
            Tag::SpHi(7),
            (Tag::SpLo(7), Tag::SpHi(7), CarryTag::None),
        ),
        Row(
            Call::Move(1),
            Tag::SpLo(3),
            Tag::SpHi(2),
            (Tag::None, Tag::None, CarryTag::None),
        ),
        Row(
            Call::Move(1),
            Tag::Entry(28),
            Tag::Entry(29),
            (Tag::None, Tag::None, CarryTag::None),
        ),
        // subi r28, 0x00; sbci r29, 0x01
        Row(
            Call::Low(0),
            Tag::SpLo(2),
            Tag::None,
            (Tag::SpLo(2), Tag::None, CarryTag::Borrow(2, 0)),
        ),
        Row(
            Call::High(1, CarryTag::Borrow(2, 0)),
            Tag::SpHi(2),
            Tag::None,
            (Tag::SpHi(258), Tag::None, CarryTag::None),
        ),
        // subi r28, 0xF0; sbci r29, 0xFF, which adds 16
        Row(
            Call::Low(0xF0),
            Tag::SpLo(2),
            Tag::None,
            (Tag::SpLo(242), Tag::None, CarryTag::Borrow(2, 0xF0)),
        ),
        Row(
            Call::High(0xFF, CarryTag::Borrow(2, 0xF0)),
            Tag::SpHi(2),
            Tag::None,
            (Tag::SpHi(65522), Tag::None, CarryTag::None),
        ),
        // nothing is known without the borrow of the low byte
        Row(
            Call::High(1, CarryTag::Less(2, 0)),
            Tag::SpHi(2),
            Tag::None,
            (Tag::None, Tag::None, CarryTag::None),
        ),
        Row(
            Call::Low(1),
            Tag::SpHi(2),
            Tag::None,
            (Tag::None, Tag::None, CarryTag::None),
        ),
        Row(
            Call::High(1, CarryTag::None),
            Tag::SpHi(2),
            Tag::None,
            (Tag::None, Tag::None, CarryTag::None),
        ),
        Row(
            Call::High(1, CarryTag::Borrow(3, 0)),
            Tag::SpHi(2),
            Tag::None,
            (Tag::None, Tag::None, CarryTag::None),
        ),
        Row(
            Call::High(1, CarryTag::Borrow(2, 0)),
            Tag::SpLo(2),
            Tag::None,
            (Tag::None, Tag::None, CarryTag::None),
        ),
        Row(
            Call::High(1, CarryTag::Borrow(2, 7)),
            Tag::SpHi(258),
            Tag::None,
            (Tag::SpHi(521), Tag::None, CarryTag::None),
        ),
        Row(
            Call::High(0, CarryTag::Borrow(2, 0)),
            Tag::SpHi(258),
            Tag::None,
            (Tag::SpHi(258), Tag::None, CarryTag::None),
        ),
        Row(
            Call::High(1, CarryTag::Sum(2, 0)),
            Tag::SpHi(2),
            Tag::None,
            (Tag::None, Tag::None, CarryTag::None),
        ),
        // add r28, 32; adc r29, 0, which gives a frame back, and past a multiple of 256
        Row(
            Call::Add(32),
            Tag::SpLo(34),
            Tag::None,
            (Tag::SpLo(2), Tag::None, CarryTag::Sum(34, 32)),
        ),
        Row(
            Call::Raise(0, CarryTag::Sum(34, 32)),
            Tag::SpHi(34),
            Tag::None,
            (Tag::SpHi(2), Tag::None, CarryTag::None),
        ),
        Row(
            Call::Add(10),
            Tag::SpLo(4),
            Tag::None,
            (Tag::SpLo(250), Tag::None, CarryTag::Sum(4, 10)),
        ),
        Row(
            Call::Raise(0, CarryTag::Sum(4, 10)),
            Tag::SpHi(260),
            Tag::None,
            (Tag::SpHi(250), Tag::None, CarryTag::None),
        ),
        Row(
            Call::Raise(1, CarryTag::Sum(2, 7)),
            Tag::SpHi(258),
            Tag::None,
            (Tag::SpHi(65531), Tag::None, CarryTag::None),
        ),
        // nothing is known without the carry of the low byte
        Row(
            Call::Raise(0, CarryTag::None),
            Tag::SpHi(34),
            Tag::None,
            (Tag::None, Tag::None, CarryTag::None),
        ),
        Row(
            Call::Raise(0, CarryTag::Sum(35, 32)),
            Tag::SpHi(34),
            Tag::None,
            (Tag::None, Tag::None, CarryTag::None),
        ),
        Row(
            Call::Raise(0, CarryTag::Borrow(34, 32)),
            Tag::SpHi(34),
            Tag::None,
            (Tag::None, Tag::None, CarryTag::None),
        ),
        Row(
            Call::Raise(0, CarryTag::Sum(34, 32)),
            Tag::SpLo(34),
            Tag::None,
            (Tag::None, Tag::None, CarryTag::None),
        ),
        // a high byte alone moves by whole pages, and a low one leaves no carry
        Row(
            Call::Add(1),
            Tag::SpHi(258),
            Tag::None,
            (Tag::SpHi(2), Tag::None, CarryTag::None),
        ),
        Row(
            Call::Add(255),
            Tag::SpHi(2),
            Tag::None,
            (Tag::SpHi(258), Tag::None, CarryTag::None),
        ),
        Row(
            Call::Add(1),
            Tag::EntryFlags,
            Tag::None,
            (Tag::None, Tag::None, CarryTag::None),
        ),
        Row(
            Call::Less(1),
            Tag::SpHi(2),
            Tag::None,
            (Tag::SpHi(258), Tag::None, CarryTag::None),
        ),
        Row(
            Call::Less(10),
            Tag::SpLo(250),
            Tag::None,
            (Tag::SpLo(4), Tag::None, CarryTag::None),
        ),
        Row(
            Call::Page(true, 1),
            Tag::SpHi(258),
            Tag::None,
            (Tag::SpHi(2), Tag::None, CarryTag::None),
        ),
        Row(
            Call::Page(true, 1),
            Tag::SpHi(2),
            Tag::None,
            (Tag::SpHi(65282), Tag::None, CarryTag::None),
        ),
        Row(
            Call::Page(false, 1),
            Tag::SpLo(2),
            Tag::None,
            (Tag::None, Tag::None, CarryTag::None),
        ),
    ],
)];

fn of_tag(tag: Tag) -> (Tag, Tag, CarryTag) {
    (tag, Tag::None, CarryTag::None)
}

fn of_pair((low, high): (Tag, Tag)) -> (Tag, Tag, CarryTag) {
    (low, high, CarryTag::None)
}

fn with_carry((tag, carry): (Tag, CarryTag)) -> (Tag, Tag, CarryTag) {
    (tag, Tag::None, carry)
}

fn found(call: &Call, t: Tag, high: Tag) -> (Tag, Tag, CarryTag) {
    match call {
        Call::Move(down) => of_pair(move_pair(t, high, *down)),
        Call::Low(k) => with_carry(sub_low(t, *k)),
        Call::High(k, carry) => of_tag(sub_high(t, *k, *carry)),
        Call::Add(n) => with_carry(add_byte(t, *n)),
        Call::Less(n) => of_tag(sub_byte(t, *n)),
        Call::Raise(n, carry) => of_tag(add_high(t, *n, *carry)),
        Call::Page(up, n) => of_tag(move_high(t, *up, *n)),
    }
}

impl WorkedRow for Row {
    fn holds(&self, _alloc: Global) -> bool {
        found(&self.0, self.1, self.2) == self.3
    }
}

/// A base of a frame.
pub struct BaseRow(u16);

pub static BASES: [(&str, &[BaseRow]); 1] = [(
    "base",
    &[
        BaseRow(0),
        BaseRow(1),
        BaseRow(0x00FF),
        BaseRow(0x0100),
        BaseRow(0x08FF),
        BaseRow(0x7F80),
        BaseRow(0xFFFF),
    ],
)];

// Places and amounts whose differences from a base borrow, carry and wrap.
static WORDS: [u16; 7] = [0, 1, 0x00FF, 0x0100, 0x08FF, 0x7F80, 0xFFFF];

// Whether the base less k, less a number and plus it, byte by byte, is where the tags say.
fn is_moved(base: u16, k: u16, amount: u16) -> bool {
    let before = base.wrapping_sub(k);
    let less = base.wrapping_sub(before.wrapping_sub(amount));
    let more = base.wrapping_sub(before.wrapping_add(amount));
    let low = Tag::SpLo(k.to_le_bytes()[0]);
    let [number, pages] = amount.to_le_bytes();
    let (lower, borrow) = sub_low(low, number);
    let (higher, carry) = add_byte(low, number);
    frame(lower, sub_high(Tag::SpHi(k), pages, borrow)) == Some(less)
        && frame(higher, add_high(Tag::SpHi(k), pages, carry)) == Some(more)
}

impl WorkedRow for BaseRow {
    fn holds(&self, _alloc: Global) -> bool {
        for at in 0..49 {
            if !is_moved(self.0, WORDS[at / 7], WORDS[at % 7]) {
                return false;
            }
        }
        true
    }
}

// An action on slots.
enum Action {
    Nothing,
    Push(u16),
    // Pops this slot, or none.
    Pop(Option<Slot<u16>>),
    Set(u16, u16),
    Resize(u16),
}

// An action, the number of slots afterwards, and the first and the last of them.
struct Step(Action, u16, Option<Slot<u16>>, Option<Slot<u16>>);

// A pushed slot is present and can be popped; at first there is nothing to pop.
static PUSHES: [Step; 5] = [
    Step(Action::Nothing, 0, None, None),
    Step(Action::Pop(None), 0, None, None),
    Step(
        Action::Push(7),
        1,
        Some(Slot::Guarded(7)),
        Some(Slot::Guarded(7)),
    ),
    Step(
        Action::Push(9),
        2,
        Some(Slot::Guarded(7)),
        Some(Slot::Guarded(9)),
    ),
    Step(
        Action::Pop(Some(Slot::Guarded(9))),
        1,
        Some(Slot::Guarded(7)),
        Some(Slot::Guarded(7)),
    ),
];

// Slots are cut and grow with free ones, up to the most.
static SIZES: [Step; 4] = [
    Step(Action::Resize(0), 0, None, None),
    Step(Action::Resize(2), 2, Some(Slot::Free), Some(Slot::Free)),
    Step(
        Action::Set(1, 5),
        2,
        Some(Slot::Free),
        Some(Slot::Guarded(5)),
    ),
    Step(
        Action::Resize(65535),
        65535,
        Some(Slot::Free),
        Some(Slot::Free),
    ),
];

fn is_pushed(slots: &mut Slots<u16>, value: u16) -> bool {
    slots.len() < 65535 && slots.push(Slot::Guarded(value)).is_ok()
}

fn is_set(slots: &mut Slots<u16>, at: u16, value: u16) -> bool {
    let there = at < slots.len();
    if there {
        slots.set(at, Slot::Guarded(value));
    }
    there
}

// Whether the action succeeded, with this popped slot.
fn is_done(slots: &mut Slots<u16>, action: &Action) -> bool {
    match action {
        Action::Nothing => true,
        Action::Push(value) => is_pushed(slots, *value),
        Action::Pop(due) => slots.pop() == *due,
        Action::Set(at, value) => is_set(slots, *at, *value),
        Action::Resize(count) => slots.resize(*count).is_ok(),
    }
}

fn has(slots: &Slots<u16>, step: &Step) -> bool {
    slots.len() == step.1
        && slots.as_slice().first().copied() == step.2
        && slots.at(step.1.wrapping_sub(1)) == step.3
}

// Whether the slots are as expected after each step.
fn go_so(slots: &mut Slots<u16>, steps: &[Step]) -> bool {
    for step in steps {
        if !is_done(slots, &step.0) || !has(slots, step) {
            return false;
        }
    }
    true
}

fn is_kept(slots: &mut Slots<u16>, copy: &Slots<u16>) -> bool {
    go_so(slots, &SIZES) && copy.as_slice() == [Slot::Guarded(7)].as_slice()
}

/// Whether slots are pushed, popped, cut and grown, and a copy keeps its contents. Running out of memory is wrong too.
pub fn are_slots(alloc: Global) -> bool {
    let mut slots: Slots<u16> = Slots::new(alloc);
    let pushed = go_so(&mut slots, &PUSHES);
    match slots.copy(alloc) {
        Ok(copy) => pushed && is_kept(&mut slots, &copy),
        Err(_) => false,
    }
}
