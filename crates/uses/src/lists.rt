//! Shows `assumption_files`.

ghost use Rattle.std.specs.Prelude.{◌≡◌, true, IfOk};
ghost use Rattle.std.specs.List.{All};
ghost use Rattle.vector_table.specs.Entries.{fits_device};

use assumption_files::{read, write};
use avr_model::device::Device;
use std::alloc::{AllocError, Global};
use text_base::LineWriter;
use vector_table::Assumptions;

/// Writes an assumption list that fits a device and reads it back, which gives that list. Fails if memory runs out.
pub fn read_back(
    alloc: Global,
    device: Device,
    list: &Assumptions,
) -> Result<Assumptions, AllocError>
    requires { All (λ e. fits_device device e ≡ true) list.now }
    ensures { IfOk result (λ again. again ≡ list.now) }
{
    let _entries = list.entries();
    let mut out = LineWriter::new(alloc);
    write(device, list, &mut out)?;
    let text = out.finish();
    match read(alloc, device, &text) {
        Ok(again) => Ok(again),
        Err(_) => Err(AllocError),
    }
}
