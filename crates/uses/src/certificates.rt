//! Shows `cert_format`.

ghost use Rattle.std.specs.Prelude.{◌≡◌, IfOk};

use avr_model::device::Device;
use cert_format::{CertFault, read, write};
use std::alloc::Global;

/// Reads a certificate for a device and writes it, which gives the text that was read.
pub fn written_back(alloc: Global, device: Device, text: &[u8]) -> Result<Vec<u8>, CertFault>
    ensures { IfOk result (λ again. again.items ≡ text.now) }
{
    let certificate = read(alloc, device, text)?;
    match write(alloc, &certificate) {
        Ok(again) => Ok(again),
        Err(_) => Err(CertFault::Memory),
    }
}
