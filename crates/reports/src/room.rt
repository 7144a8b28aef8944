//! Whether the stack fits into SRAM beside static data.

ghost use Rattle.std.specs.Prelude.{◌≡◌};
ghost use Rattle.reports.specs.Report.{room, fits, fits_word};

use avr_model::device::Device;

// The bytes of SRAM left after static data that ends at this data address.
pub(crate) fn room(device: Device, static_end: u16) -> u16
    ensures { result ≡ room device static_end }
{
    (device.ramend() + 1).saturating_sub(static_end)
}

// Whether a stack of this many bytes does not reach static data.
fn fits(device: Device, bound: u16, static_end: u16) -> bool
    ensures { result ≡ fits device bound static_end }
{
    u32::from(static_end) + u32::from(bound) <= u32::from(device.ramend() + 1)
}

// The word for it.
pub(crate) fn fits_word(device: Device, bound: u16, static_end: u16) -> &'static str
    ensures { result.now ≡ fits_word device bound static_end }
{
    if fits(device, bound, static_end) {
        "yes"
    } else {
        "no"
    }
}
