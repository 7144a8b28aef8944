//! Whether the entries of a list fit the firmware's device.

ghost use Rattle.std.specs.Prelude.{◌≤◌, length};
ghost use Rattle.std.specs.Option.{MatchOption};
ghost use Rattle.avr_model.specs.Devices.{device_of};
ghost use Rattle.vector_table.specs.Entries.{most_entries};
ghost use Rattle.round_rules.specs.Solutions.{AllFit, IsFirstMisfit};

use avr_model::device::Device;
use family_edges::Task;
use vector_table::{Entry, fits};

// The index of the first entry that no list of the device has.
fn misfit_in(device: Device, entries: &[Entry]) -> Option<u32>
    requires { length entries.now ≤ most_entries }
    ensures { MatchOption result (AllFit device entries.now) (λ at. IsFirstMisfit device entries.now at) }
{
    for at in 0..entries.len() {
        if !fits(device, &entries[at]) {
            return Some(at as u32);
        }
    }
    None
}

/// The index, from 0, of the first assumption that no list of the firmware's device has.
pub(crate) fn first_misfit(task: &Task<'_>) -> Option<u32>
    ensures { MatchOption result (AllFit (device_of task.now.flash.now) task.now.assumptions.now) (IsFirstMisfit (device_of task.now.flash.now) task.now.assumptions.now) }
{
    misfit_in(task.flash.device(), task.assumptions.entries())
}
