//! Worked nestings: the verdict found by hand, if it is judged once at the end or after each note.

ghost use Rattle.std.specs.Prelude.{◌≤◌};
ghost use Rattle.avr_model.specs.State.{SIZE};
ghost use Rattle.node_keys.specs.Keys.{offset_of};

use crate::tests::nesting::key;
use avr_model::device::{Device, SIZE};
use node_keys::{NodeKey, SpForm};
use round_nesting::{Nesting, NestingVerdict};
use row_tests::WorkedRow;
use std::alloc::{AllocError, Global};

// Devices with 512 and with 2,048 bytes of SRAM.
const SMALL: Device = Device::M48;

const LARGE: Device = Device::M328;

// The kind of an instance's entry, and the entry: 0 is the root, 1 a call, and any other number a vector.
type Inst = (u8, u32);

const ROOT: Inst = (0, 0);

const FUNCTION: Inst = (1, 40);

const LEAF: Inst = (1, 30);

const HANDLER: Inst = (5, 10);

const LATER: Inst = (9, 18);

#[derive(Clone, Copy)]
enum Note {
    // A node of this instance at this offset.
    Node(Inst, u16),
    // A node of the first instance at this offset enters the second.
    Entrance(Inst, u16, Inst),
}

fn node(inst: Inst, offset: u16) -> NodeKey
    ensures { offset_of result.sp ≤ SIZE }
{
    let sp = SpForm::Closed(offset.min(SIZE));
    NodeKey {
        sp,
        ..NodeKey::entry(&key(inst.0, inst.1))
    }
}

fn take(nesting: &mut Nesting, note: Note) -> Result<(), AllocError> {
    match note {
        Note::Node(inst, offset) => nesting.note_node(&node(inst, offset)),
        Note::Entrance(from, offset, into) => {
            nesting.note_entrance(&key(from.0, from.1), &key(into.0, into.1), offset.min(SIZE))
        }
    }
}

// Adds the notes, and judges the nesting after each of them if `often`.
fn take_all(
    nesting: &mut Nesting,
    device: Device,
    notes: &[Note],
    often: bool,
) -> Result<(), AllocError> {
    for note in notes {
        take(nesting, *note)?;
        if often && nesting.count() <= 65_536 {
            nesting.judge(device)?;
        }
    }
    Ok(())
}

// Whether the notes give this verdict on this device; if `often`, the nesting is also judged after each note.
fn tells(
    nesting: &mut Nesting,
    device: Device,
    notes: &[Note],
    often: bool,
    due: &NestingVerdict,
) -> bool {
    let taken = take_all(nesting, device, notes, often).is_ok();
    if !taken || nesting.count() > 65_536 {
        return false;
    }
    match nesting.judge(device) {
        Ok(verdict) => verdict == *due,
        Err(_) => false,
    }
}

fn is_told(
    alloc: Global,
    device: Device,
    notes: &[Note],
    often: bool,
    due: &NestingVerdict,
) -> bool {
    let mut nesting = Nesting::new(alloc);
    tells(&mut nesting, device, notes, often, due)
}

fn is_row(alloc: Global, device: Device, notes: &[Note], due: &NestingVerdict) -> bool {
    is_told(alloc, device, notes, false, due) && is_told(alloc, device, notes, true, due)
}

// Functions one below the other, each new when it is entered.
fn chain() -> [Note; 81] {
    let mut notes = [Note::Node(ROOT, 0); 81];
    let mut from = ROOT;
    for at in 0..40_u32 {
        let into = (1, 100 + at);
        notes[2 * at as usize + 1] = Note::Entrance(from, 1, into);
        notes[2 * at as usize + 2] = Note::Node(into, 0);
        from = into;
    }
    notes
}

/// The device, the notes, and the verdict.
pub struct Row(Device, &'static [Note], NestingVerdict);

pub static ROWS: [(&str, &[Row]); 1] = [(
    "nesting",
    &[
        Row(LARGE, &[Note::Node(ROOT, 0)], NestingVerdict::Nests),
        // a need of exactly the SRAM of the ATmega48PA, and one more; then of exactly that of the ATmega328P
        Row(SMALL, &[Note::Node(ROOT, 512)], NestingVerdict::Nests),
        Row(
            SMALL,
            &[Note::Node(ROOT, 513)],
            NestingVerdict::TooDeep(513),
        ),
        Row(LARGE, &[Note::Node(ROOT, 2_048)], NestingVerdict::Nests),
        Row(
            LARGE,
            &[
                Note::Node(ROOT, 0),
                Note::Entrance(ROOT, 46, FUNCTION),
                Note::Node(FUNCTION, 2_000),
            ],
            NestingVerdict::Nests,
        ),
        Row(
            LARGE,
            &[
                Note::Node(ROOT, 0),
                Note::Entrance(ROOT, 46, FUNCTION),
                Note::Node(FUNCTION, 2_001),
            ],
            NestingVerdict::TooDeep(2_049),
        ),
        // an entered instance without nodes needs nothing
        Row(
            LARGE,
            &[Note::Node(ROOT, 0), Note::Entrance(ROOT, 2_046, FUNCTION)],
            NestingVerdict::Nests,
        ),
        Row(
            LARGE,
            &[
                Note::Node(ROOT, 0),
                Note::Entrance(ROOT, 2_047, FUNCTION),
                Note::Entrance(ROOT, 0, HANDLER),
            ],
            NestingVerdict::TooDeep(2_049),
        ),
        // a handler below a function below the root, with a return address for each
        Row(
            LARGE,
            &[
                Note::Node(ROOT, 10),
                Note::Entrance(ROOT, 1_000, FUNCTION),
                Note::Node(FUNCTION, 0),
                Note::Entrance(FUNCTION, 1_000, HANDLER),
                Note::Node(HANDLER, 45),
            ],
            NestingVerdict::TooDeep(2_049),
        ),
        // two instances enter a third, each at its own depth
        Row(
            LARGE,
            &[
                Note::Node(ROOT, 0),
                Note::Entrance(ROOT, 2_000, LEAF),
                Note::Entrance(ROOT, 0, FUNCTION),
                Note::Node(FUNCTION, 100),
                Note::Entrance(FUNCTION, 1_500, LEAF),
                Note::Node(LEAF, 46),
            ],
            NestingVerdict::Nests,
        ),
        // a recursive function, and one that is recursive through another
        Row(
            LARGE,
            &[
                Note::Node(ROOT, 0),
                Note::Entrance(ROOT, 0, FUNCTION),
                Note::Node(FUNCTION, 0),
                Note::Entrance(FUNCTION, 0, FUNCTION),
            ],
            NestingVerdict::Recursion(40),
        ),
        Row(
            LARGE,
            &[
                Note::Node(ROOT, 0),
                Note::Entrance(ROOT, 0, FUNCTION),
                Note::Node(FUNCTION, 0),
                Note::Entrance(FUNCTION, 0, LEAF),
                Note::Node(LEAF, 0),
                Note::Entrance(LEAF, 0, FUNCTION),
            ],
            NestingVerdict::Recursion(30),
        ),
        // two handlers that enter each other: the lesser vector is named
        Row(
            LARGE,
            &[
                Note::Node(ROOT, 0),
                Note::Entrance(ROOT, 0, LATER),
                Note::Node(LATER, 0),
                Note::Entrance(LATER, 0, HANDLER),
                Note::Node(HANDLER, 0),
                Note::Entrance(HANDLER, 0, LATER),
            ],
            NestingVerdict::ReEntry(5, 10),
        ),
        // a handler is named before a function
        Row(
            LARGE,
            &[
                Note::Node(ROOT, 0),
                Note::Entrance(ROOT, 0, LEAF),
                Note::Node(LEAF, 0),
                Note::Entrance(LEAF, 0, LEAF),
                Note::Entrance(LEAF, 0, LATER),
                Note::Node(LATER, 0),
                Note::Entrance(LATER, 0, LATER),
            ],
            NestingVerdict::ReEntry(9, 18),
        ),
        // a cycle comes before the depth, also if the root is noted last
        Row(
            LARGE,
            &[
                Note::Node(FUNCTION, 2_048),
                Note::Entrance(FUNCTION, 0, FUNCTION),
                Note::Entrance(ROOT, 2_048, FUNCTION),
                Note::Node(ROOT, 0),
            ],
            NestingVerdict::Recursion(40),
        ),
    ],
)];

impl WorkedRow for Row {
    fn holds(&self, alloc: Global) -> bool {
        is_row(alloc, self.0, self.1, &self.2)
    }
}

/// Whether forty functions below each other nest.
pub fn is_chain(alloc: Global) -> bool {
    is_row(alloc, LARGE, &chain(), &NestingVerdict::Nests)
}
