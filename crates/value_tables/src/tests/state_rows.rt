//! Rows of two states and an operation on them.

ghost use Rattle.std.specs.Prelude.{ℕ, ◌<◌};
ghost use Rattle.avr_model.specs.State.{REGISTERS};
ghost use Rattle.abs_state.specs.Values.{value_at};
ghost use Rattle.abs_state.specs.Formed.{NamesRegister};

use super::pools::is_kept;
use super::states::{ANY, Byte, Flags, Known, SLOT, X45, enters, is_join, returns_so, state_of};
use abs_state::AbsState;
use row_tests::WorkedRow;
use sp_domain::{CarryTag, Slot, Tag};
use std::alloc::Global;

// The operation on two states.
enum What {
    // A caller and an exit: the state after the return, or none if no machine returns so.
    Return(Option<Known>),
    // The first state's join with the second.
    Join(Known),
    // The entry from the first state; the second is not used.
    Entry,
    // The first state is interned twice, and the second once.
    Pool,
}

/// Two states, and the operation on them.
pub struct StateRow(Known, Known, What);

const ENTERED: Byte = Byte(Tag::Entry(0), 0, 0, 0, 0xff);

const KEPT_RANGE: Byte = Byte(Tag::Entry(0), 0, 0, 8, 0x20);

const SET: Flags = Flags(false, 0x01, 0x01, CarryTag::None);

const TIED: Flags = Flags(true, 0x01, 0x01, CarryTag::None);

const CLEAR: Flags = Flags(true, 0x01, 0x00, CarryTag::None);

const BORROWED: Flags = Flags(false, 0x01, 0x01, CarryTag::Borrow(3, 5));

const LESSENED: Flags = Flags(false, 0x01, 0x01, CarryTag::Less(0, 4));

const SUMMED: Flags = Flags(true, 0x01, 0x01, CarryTag::Sum(3, 5));

const ALL_CLEAR: Flags = Flags(true, 0x7f, 0x00, CarryTag::None);

const CALLER: Known = Known(
    Byte(Tag::None, 0, 0, 0x03, 0x41),
    Byte(Tag::SpHi(3), 0x0f, 0x08, 0x08, 0xf8),
    Flags(false, 0x01, 0x01, CarryTag::Borrow(3, 5)),
    &[Slot::Free],
);

const STATE: Known = Known(X45, ANY, ALL_CLEAR, SLOT);

pub static TABLES: [(&str, &[StateRow]); 4] = [
    (
        "return",
        &[
            // what the exit still has of the entry is the caller's, with the meet of the bits
            StateRow(
                Known(
                    Byte(Tag::SpLo(3), 0xf0, 0x40, 0x40, 0x4f),
                    Byte(Tag::None, 0xff, 0x10, 0x10, 0x10),
                    BORROWED,
                    SLOT,
                ),
                Known(
                    Byte(Tag::SpHi(300), 0xff, 0x12, 0x12, 0x12),
                    Byte(Tag::Entry(0), 0x0f, 0x05, 0x05, 0xf5),
                    Flags(true, 0x02, 0x02, CarryTag::Borrow(9, 9)),
                    SLOT,
                ),
                What::Return(Some(Known(
                    Byte(Tag::None, 0xff, 0x12, 0x12, 0x12),
                    Byte(Tag::SpLo(3), 0xff, 0x45, 0x45, 0x45),
                    Flags(false, 0x03, 0x03, CarryTag::Borrow(3, 5)),
                    SLOT,
                ))),
            ),
            // flags that the callee changed are its own
            StateRow(
                Known(
                    ANY,
                    ANY,
                    Flags(true, 0x01, 0x01, CarryTag::Borrow(3, 5)),
                    SLOT,
                ),
                Known(
                    ANY,
                    ANY,
                    Flags(false, 0x01, 0x00, CarryTag::Borrow(9, 9)),
                    SLOT,
                ),
                What::Return(Some(Known(ANY, ANY, Flags(false, 0x01, 0x00, CarryTag::None), SLOT))),
            ),
            // the carry tag of a sum is kept like that of a difference
            StateRow(
                Known(ANY, ANY, SUMMED, SLOT),
                Known(ANY, ANY, TIED, SLOT),
                What::Return(Some(Known(ANY, ANY, SUMMED, SLOT))),
            ),
            // bits that differ, of a byte and of the flags, and flags that may be equal
            StateRow(
                Known(Byte(Tag::None, 0xff, 0x41, 0x41, 0x41), ANY, CLEAR, SLOT),
                Known(
                    ANY,
                    Byte(Tag::Entry(0), 0x03, 0x03, 0x03, 0xff),
                    CLEAR,
                    SLOT,
                ),
                What::Return(None),
            ),
            StateRow(
                Known(ANY, ANY, CLEAR, SLOT),
                Known(ANY, ANY, TIED, SLOT),
                What::Return(None),
            ),
            StateRow(
                Known(ANY, ANY, CLEAR, SLOT),
                Known(ANY, ANY, SET, SLOT),
                What::Return(Some(Known(ANY, ANY, SET, SLOT))),
            ),
            // the meet of both ranges, if there is one
            StateRow(
                Known(Byte(Tag::None, 0, 0, 3, 0x10), ANY, BORROWED, SLOT),
                Known(ANY, KEPT_RANGE, SET, SLOT),
                What::Return(Some(Known(ANY, Byte(Tag::None, 0, 0, 8, 0x10), SET, SLOT))),
            ),
            StateRow(
                Known(Byte(Tag::None, 0, 0, 3, 7), ANY, BORROWED, SLOT),
                Known(ANY, KEPT_RANGE, SET, SLOT),
                What::Return(None),
            ),
            // the carry tag of a register is kept if the register and the flags are
            StateRow(
                Known(ANY, ANY, LESSENED, SLOT),
                Known(ENTERED, ANY, TIED, SLOT),
                What::Return(Some(Known(ANY, ANY, LESSENED, SLOT))),
            ),
            StateRow(
                Known(ANY, ANY, LESSENED, SLOT),
                Known(ANY, ANY, TIED, SLOT),
                What::Return(Some(Known(ANY, ANY, SET, SLOT))),
            ),
        ],
    ),
    (
        "join of states",
        &[StateRow(
            Known(
                X45,
                ANY,
                ALL_CLEAR,
                &[
                    Slot::Guarded(Byte(Tag::None, 0xff, 0x22, 0x22, 0x22)),
                    Slot::Guarded(Byte(Tag::None, 0xff, 0x33, 0x33, 0x33)),
                ],
            ),
            Known(
                Byte(Tag::None, 0xff, 0x43, 0x43, 0x43),
                ANY,
                ALL_CLEAR,
                &[
                    Slot::Free,
                    Slot::Guarded(Byte(Tag::None, 0xff, 0x32, 0x32, 0x32)),
                ],
            ),
            What::Join(Known(
                Byte(Tag::None, 0xf9, 0x41, 0x43, 0x45),
                ANY,
                ALL_CLEAR,
                &[
                    Slot::Free,
                    Slot::Guarded(Byte(Tag::None, 0xfe, 0x32, 0x32, 0x33)),
                ],
            )),
        )],
    ),
    ("entry", &[StateRow(CALLER, CALLER, What::Entry)]),
    // states that differ in a tag, in a range, in the carry tag and in a flag
    (
        "pool",
        &[
            StateRow(
                STATE,
                Known(X45, Byte(Tag::SpLo(3), 0, 0, 0, 0xff), ALL_CLEAR, SLOT),
                What::Pool,
            ),
            StateRow(
                STATE,
                Known(X45, Byte(Tag::None, 0, 0, 0x03, 0x10), ALL_CLEAR, SLOT),
                What::Pool,
            ),
            StateRow(
                STATE,
                Known(
                    X45,
                    ANY,
                    Flags(true, 0x7f, 0x00, CarryTag::Borrow(3, 5)),
                    SLOT,
                ),
                What::Pool,
            ),
            StateRow(
                STATE,
                Known(X45, ANY, Flags(true, 0x7f, 0x01, CarryTag::None), SLOT),
                What::Pool,
            ),
        ],
    ),
];

// Whether the operation on the two states gives this.
fn is_made(alloc: Global, first: &AbsState, second: &AbsState, what: &What) -> bool
    requires { (r : ℕ) → r < REGISTERS → NamesRegister (value_at second.now.registers r).tag }
{
    match what {
        What::Return(due) => returns_so(alloc, first, second, due),
        What::Join(due) => is_join(alloc, first, second, due),
        What::Entry => enters(alloc, first),
        What::Pool => is_kept(alloc, first, second),
    }
}

fn holds_beside(alloc: Global, first: &AbsState, row: &StateRow) -> bool {
    match state_of(alloc, &row.1) {
        Some(second) => is_made(alloc, first, &second, &row.2),
        None => false,
    }
}

impl WorkedRow for StateRow {
    fn holds(&self, alloc: Global) -> bool {
        match state_of(alloc, &self.0) {
            Some(first) => holds_beside(alloc, &first, self),
            None => false,
        }
    }
}
