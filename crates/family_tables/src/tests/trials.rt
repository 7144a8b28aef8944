//! Trials of small firmwares.

use avr_machine::{Masks, Stop};
use avr_model::device::Device;
use family_edges::Task;
use flash_image::Flash;
use row_tests::WorkedRow;
use std::alloc::{AllocError, Global};
use vector_table::Assumptions;
use witness_replay::{ReplayReport, Schedule, replay};
use witness_search::{Waypoint, first_trial};

/// The words from 0 on, the depth at which vector 2 is due at word 7, and the bound; the fill byte and the steps of the schedule.
pub struct Row([u16; 7], u16, u16, Option<(u8, u32)>);

// An erased word.
const E: u16 = 0xFFFF;

// `rjmp` to word 4, where the enable bit of vector 2 and I are set, and `nop`; then an erased word. Vector 2 returns at once.
const TAKING: [u16; 7] = [0xC003, 0x0000, 0x9518, 0x0000, 0x9AE8, 0x9478, 0x0000];

// `in r24, 0x09` and `sbrc r24, 0`, which skips `push r0` if the input's bit 0 is clear; then an erased word.
const ASKING: [u16; 7] = [0xB189, 0xFD80, 0x920F, E, E, E, E];

pub static ROWS: [(&str, &[Row]); 1] = [(
    "trial",
    &[
        // the interrupt is taken at its waypoint
        Row(TAKING, 0, 2, Some((0x00, 5))),
        // the stack is never as deep as this waypoint
        Row(TAKING, 1, 2, None),
        // the second trial's input is the first with bit 0 set
        Row(ASKING, 0, 1, Some((0xFF, 3))),
        // no step is made if the bound is reached at reset
        Row(ASKING, 0, 0, Some((0x00, 0))),
        // each trial stops at once
        Row([E, E, E, E, E, E, E], 0, 1, None),
    ],
)];

fn add_words(bytes: &mut Vec<u8>, words: &[u16]) -> Result<(), AllocError> {
    for word in words {
        bytes.extend_from_slice(&word.to_le_bytes())?;
    }
    Ok(())
}

// Whether the schedule begins so and has this many steps.
fn is_due(task: &Task<'_>, schedule: &Schedule, row: &Row) -> bool {
    let Some((fill, steps)) = row.3 else {
        return false;
    };
    let report = ReplayReport {
        steps,
        depth: row.2,
        stop: Stop::End,
    };
    schedule.fill() == fill && replay(task.flash, task.assumptions, schedule) == Ok(report)
}

fn is_tried(task: &Task<'_>, row: &Row) -> bool {
    let points = [Waypoint {
        pc: 7,
        // the enable bit of vector 2
        masks: Masks::from_bits(1),
        depth: row.1,
        end: Device::M328.ramend(),
        vector: 2,
        clears: false,
    }];
    match first_trial(task, &points, row.2) {
        Ok(Some(schedule)) => is_due(task, &schedule, row),
        Ok(None) => row.3.is_none(),
        Err(_) => false,
    }
}

fn is_on(alloc: Global, bytes: &[u8], row: &Row) -> bool {
    let Ok(flash) = Flash::from_raw(alloc, Device::M328, bytes) else {
        return false;
    };
    let task = Task {
        alloc,
        flash: &flash,
        assumptions: &Assumptions::empty(alloc),
    };
    is_tried(&task, row)
}

impl WorkedRow for Row {
    fn holds(&self, alloc: Global) -> bool {
        let mut bytes = Vec::new(alloc);
        let added = add_words(&mut bytes, &self.0).is_ok();
        added && is_on(alloc, bytes.as_slice(), self)
    }
}
