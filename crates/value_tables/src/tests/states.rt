//! Values and states worked by hand, each answer compared as a whole.

ghost use Rattle.std.specs.Prelude.{ℕ, ◌≡◌, ◌<◌, length, IfSome, IsTrue};
ghost use Rattle.avr_model.specs.State.{REGISTERS};
ghost use Rattle.abs_state.specs.Values.{value_at};
ghost use Rattle.abs_state.specs.Formed.{NamesRegister};

use abs_state::{AbsByte, AbsFlags, AbsState, Registers};
use bit_domain::TriByte;
use row_tests::WorkedRow;
use sp_domain::{CarryTag, Slot, Slots, Tag};
use std::alloc::{AllocError, Global};

/// A byte: its tag, its known bits and their values, and its least and greatest byte.
pub struct Byte(pub Tag, pub u8, pub u8, pub u8, pub u8);

pub fn byte_of(byte: &Byte) -> AbsByte {
    AbsByte {
        tag: byte.0,
        bits: TriByte::new(byte.1, byte.2),
        low: byte.3,
        high: byte.4,
    }
}

/// Flags: whether they are those of the entry, known bits and their values, and the carry tag.
pub struct Flags(pub bool, pub u8, pub u8, pub CarryTag);

fn flags_of(flags: &Flags) -> AbsFlags {
    AbsFlags {
        entry: flags.0,
        bits: TriByte::new(flags.1, flags.2),
        carry: flags.3,
    }
}

/// The values of registers 0 and 31, the flags, and the slots.
pub struct Known(pub Byte, pub Byte, pub Flags, pub &'static [Slot<Byte>]);

pub const ANY: Byte = Byte(Tag::None, 0, 0, 0, 0xff);

pub const X45: Byte = Byte(Tag::None, 0xff, 0x45, 0x45, 0x45);

// RAMPZ and EIND after reset.
const ZERO: Byte = Byte(Tag::None, 0xff, 0, 0, 0);

/// A slot alone.
pub const SLOT: &[Slot<Byte>] = &[Slot::Guarded(Byte(Tag::None, 0xff, 0x22, 0x22, 0x22))];

/// Two bytes and their join.
pub struct ValueJoin(Byte, Byte, Byte);

pub static VALUE_JOINS: [(&str, &[ValueJoin]); 1] = [(
    "join of values",
    &[
        // the least range with both, which the bits alone do not give
        ValueJoin(
            Byte(Tag::SpLo(3), 0xff, 0x45, 0x45, 0x45),
            Byte(Tag::SpLo(3), 0xff, 0x43, 0x43, 0x43),
            Byte(Tag::SpLo(3), 0xf9, 0x41, 0x43, 0x45),
        ),
        ValueJoin(
            Byte(Tag::None, 0, 0, 0x03, 0x10),
            Byte(Tag::None, 0, 0, 0x20, 0x30),
            Byte(Tag::None, 0, 0, 0x03, 0x30),
        ),
        ValueJoin(
            Byte(Tag::None, 0, 0, 0x03, 0x10),
            Byte(Tag::None, 0, 0, 0x04, 0x11),
            Byte(Tag::None, 0, 0, 0x03, 0x11),
        ),
        ValueJoin(
            Byte(Tag::SpLo(3), 0xff, 0x45, 0x45, 0x45),
            Byte(Tag::SpLo(4), 0xff, 0x45, 0x45, 0x45),
            X45,
        ),
    ],
)];

impl WorkedRow for ValueJoin {
    // The join is as expected and above both, and the first, which isn't the join, is not above it.
    fn holds(&self, _alloc: Global) -> bool {
        let (v, w, both) = (byte_of(&self.0), byte_of(&self.1), byte_of(&self.2));
        v.join(w) == both && v.le(both) && w.le(both) && !both.le(v)
    }
}

/// Two flags and their join.
pub struct FlagJoin(Flags, Flags, Flags);

const KEPT: Flags = Flags(true, 0x03, 0x01, CarryTag::Borrow(3, 5));

const LESS: Flags = Flags(false, 0x03, 0x01, CarryTag::Less(16, 4));

pub static FLAG_JOINS: [(&str, &[FlagJoin]); 1] = [(
    "join of flags",
    &[
        FlagJoin(
            KEPT,
            Flags(false, 0x01, 0x01, CarryTag::Borrow(3, 5)),
            Flags(false, 0x01, 0x01, CarryTag::Borrow(3, 5)),
        ),
        FlagJoin(
            KEPT,
            Flags(true, 0x03, 0x03, CarryTag::None),
            Flags(true, 0x01, 0x01, CarryTag::None),
        ),
        FlagJoin(
            LESS,
            Flags(false, 0x01, 0x01, CarryTag::Less(16, 4)),
            Flags(false, 0x01, 0x01, CarryTag::Less(16, 4)),
        ),
        FlagJoin(
            KEPT,
            Flags(true, 0x03, 0x01, CarryTag::Sum(3, 5)),
            Flags(true, 0x03, 0x01, CarryTag::None),
        ),
        FlagJoin(
            LESS,
            Flags(false, 0x03, 0x01, CarryTag::Less(16, 5)),
            Flags(false, 0x03, 0x01, CarryTag::None),
        ),
    ],
)];

impl WorkedRow for FlagJoin {
    fn holds(&self, _alloc: Global) -> bool {
        let (f, g, both) = (flags_of(&self.0), flags_of(&self.1), flags_of(&self.2));
        f.join(g) == both && f.le(both) && g.le(both) && !both.le(f)
    }
}

// An unknown byte, a known byte, one with some bits known, and the known one as a place.
static BYTES: [Byte; 4] = [
    ANY,
    X45,
    Byte(Tag::None, 0x0f, 0x05, 0x05, 0xf5),
    Byte(Tag::SpLo(3), 0xff, 0x45, 0x45, 0x45),
];

/// Whether values of a byte or of bits alone have no tag, and are above those with a tag.
pub fn are_untagged() -> bool {
    let known = AbsByte::known(0x45);
    let made = [
        AbsByte::unknown(),
        known,
        AbsByte::untagged(TriByte::new(0x0f, 0x05)),
    ];
    made == [byte_of(&BYTES[0]), byte_of(&BYTES[1]), byte_of(&BYTES[2])]
        && !known.le(byte_of(&BYTES[3]))
}

// The root's state with other values in registers 0 and 31, and other flags.
fn state(alloc: Global, first: AbsByte, last: AbsByte, flags: AbsFlags) -> AbsState
    requires first { NamesRegister first.tag }
    requires last { NamesRegister last.tag }
    ensures { (r : ℕ) → r < REGISTERS → NamesRegister (value_at result.registers r).tag }
{
    let mut state = AbsState::root(alloc);
    state.registers[0] = first;
    state.registers[31] = last;
    state.flags = flags;
    state
}

// Whether the tag names a register, if any.
fn is_named(value: AbsByte) -> bool
    ensures { IsTrue result → NamesRegister value.tag }
{
    match value.tag {
        Tag::Entry(r) => r < 34,
        _ => true,
    }
}

fn slot_of(slot: &Slot<Byte>) -> Slot<AbsByte> {
    match slot {
        Slot::Free => Slot::Free,
        Slot::Guarded(byte) => Slot::Guarded(byte_of(byte)),
    }
}

// Pushes these slots, while there is room.
fn push_all(slots: &mut Slots<AbsByte>, known: &[Slot<Byte>]) -> Result<(), AllocError> {
    for slot in known {
        if slots.len() < 65535 {
            slots.push(slot_of(slot))?;
        }
    }
    Ok(())
}

/// The state with these values. None also if memory runs out.
pub fn state_of(alloc: Global, known: &Known) -> Option<AbsState>
    ensures { IfSome result (λ s. (r : ℕ) → r < REGISTERS → NamesRegister (value_at s.registers r).tag) }
{
    let (first, last) = (byte_of(&known.0), byte_of(&known.1));
    if !is_named(first) || !is_named(last) {
        return None;
    }
    let mut state = state(alloc, first, last, flags_of(&known.2));
    if push_all(&mut state.slots, known.3).is_err() {
        return None;
    }
    Some(state)
}

/// Whether two states have the same registers, flags and slots.
pub fn is_same(state: &AbsState, wanted: &AbsState) -> bool {
    state.registers == wanted.registers
        && state.flags == wanted.flags
        && state.slots.as_slice() == wanted.slots.as_slice()
}

// Flags of the root, and those entered from a caller with C set.
static FLAGS: [Flags; 2] = [
    Flags(false, 0x7f, 0x00, CarryTag::None),
    Flags(true, 0x01, 0x01, CarryTag::None),
];

fn knows_flags_alone(root: &AbsState) -> bool {
    let mut registers = [byte_of(&BYTES[0]); 34];
    registers[32] = byte_of(&ZERO);
    registers[33] = byte_of(&ZERO);
    root.registers == registers && root.flags == flags_of(&FLAGS[0]) && root.slots.len() == 0
}

/// Whether only RAMPZ, EIND and the flags are known in the root.
pub fn is_root(alloc: Global) -> bool {
    knows_flags_alone(&AbsState::root(alloc))
}

// Whether a register is tagged with its entry value, and has the caller's bits and range.
fn is_entry(entered: AbsByte, r: u8, was: AbsByte) -> bool {
    let tag = Tag::Entry(r);
    entered == AbsByte { tag, ..was }
}

fn are_entries(entered: &Registers, caller: &Registers) -> bool {
    for r in 0..34u8 {
        let at = usize::from(r);
        if !is_entry(entered[at], r, caller[at]) {
            return false;
        }
    }
    true
}

fn is_entered(entered: &AbsState, caller: &AbsState) -> bool {
    are_entries(&entered.registers, &caller.registers)
        && entered.flags == flags_of(&FLAGS[1])
        && entered.slots.len() == 0
}

/// Whether an entry tags each register, and keeps neither the slots nor the carry tag.
pub fn enters(alloc: Global, caller: &AbsState) -> bool {
    match caller.entered(alloc) {
        Ok(entered) => is_entered(&entered, caller),
        Err(_) => false,
    }
}

// Whether the state has exactly these values.
fn is_known(alloc: Global, state: &AbsState, known: &Known) -> bool {
    match state_of(alloc, known) {
        Some(wanted) => is_same(state, &wanted),
        None => false,
    }
}

fn is_due(alloc: Global, state: &AbsState, due: &Option<Known>) -> bool {
    match due {
        Some(known) => is_known(alloc, state, known),
        None => false,
    }
}

/// Whether the state after a return has these values; none if no machine returns so.
pub fn returns_so(alloc: Global, caller: &AbsState, exit: &AbsState, due: &Option<Known>) -> bool
    requires { (r : ℕ) → r < REGISTERS → NamesRegister (value_at exit.now.registers r).tag }
{
    match caller.returned(alloc, exit) {
        Ok(Some(after)) => is_due(alloc, &after, due),
        Ok(None) => due.is_none(),
        Err(_) => false,
    }
}

// Whether a copy of the first grows to the join with the second, and does not grow again.
fn grows(joined: &mut AbsState, low: &AbsState, other: &AbsState, wanted: &AbsState) -> bool
    requires copy { joined.old ≡ low.now }
    requires slots { length low.now.slots ≡ length other.now.slots }
{
    let copied = is_same(joined, low);
    let grew = joined.join_into(other);
    let risen = is_same(joined, wanted);
    let grew_again = joined.join_into(low);
    let order = [low.le(joined), joined.le(low)];
    copied
        && risen
        && is_same(joined, wanted)
        && [grew, grew_again] == [true, false]
        && order == [true, false]
}

fn is_grown(alloc: Global, low: &AbsState, other: &AbsState, wanted: &AbsState) -> bool
    requires { length low.now.slots ≡ length other.now.slots }
{
    match low.copy(alloc) {
        Ok(mut joined) => grows(&mut joined, low, other, wanted),
        Err(_) => false,
    }
}

/// Whether the join of two states has these values.
pub fn is_join(alloc: Global, low: &AbsState, other: &AbsState, known: &Known) -> bool {
    if low.slots.len() != other.slots.len() {
        return false;
    }
    match state_of(alloc, known) {
        Some(wanted) => is_grown(alloc, low, other, &wanted),
        None => false,
    }
}
