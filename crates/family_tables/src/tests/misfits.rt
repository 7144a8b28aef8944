//! Assumptions that do not fit the firmware's device.

use super::edges::flash_on;
use avr_model::device::Device;
use family_edges::Task;
use fixpoint::{Refusal, solve};
use flash_image::Flash;
use row_tests::WorkedRow;
use std::alloc::Global;
use vector_table::{Assumptions, Entry};

// `rjmp .-2`
const STAY: [u8; 2] = [0xFF, 0xCF];

/// A device, the words of two `prove` entries in order, and the index of the first entry that does not fit the device.
pub struct Row(Device, u16, u16, Option<u32>);

// Whether the analysis names this misfit, or finds a certificate if there is none.
fn is_told(task: &Task<'_>, due: Option<u32>) -> bool {
    match solve(task, None) {
        Ok(certificate) => {
            drop(certificate);
            due.is_none()
        }
        Err(Refusal::Misfit(at)) => due == Some(at),
        Err(_) => false,
    }
}

// The same under `prove` entries at these words. They come by value, so that the proof knows their range.
fn is_on(alloc: Global, flash: &Flash, first: u16, second: u16, due: Option<u32>) -> bool {
    let mut list = Assumptions::empty(alloc);
    let Ok(()) = list.push(Entry::Prove(u32::from(first))) else {
        return false;
    };
    let Ok(()) = list.push(Entry::Prove(u32::from(second))) else {
        return false;
    };
    let task = Task {
        alloc,
        flash,
        assumptions: &list,
    };
    is_told(&task, due)
}

impl WorkedRow for Row {
    fn holds(&self, alloc: Global) -> bool {
        match flash_on(alloc, self.0, &STAY) {
            Some(flash) => is_on(alloc, &flash, self.1, self.2, self.3),
            None => false,
        }
    }
}

pub static ROWS: [(&str, &[Row]); 1] = [(
    "misfit",
    &[
        Row(Device::M328, 2, 0x3FFF, None),
        Row(Device::M328, 0x3FFF, 0x4000, Some(1)),
        Row(Device::M328, 0x4000, 0x4001, Some(0)),
    ],
)];
