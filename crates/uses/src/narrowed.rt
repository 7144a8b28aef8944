//! Shows `flash_image`.

ghost use Rattle.std.specs.Prelude.{IfOk, IfSome};
ghost use Rattle.avr_model.specs.Image.{IsNarrowed, raw_words};

use flash_image::laws::raw_images_are_their_words;
use flash_image::{Device, Flash, RawFault};
use std::alloc::Global;

/// The flash of a device with the words of a raw file. `None` if a word behind its last one is not erased.
pub fn flash_of(alloc: Global, device: Device, bytes: &[u8]) -> Result<Option<Flash>, RawFault>
    ensures { IfOk result (λ o. IfSome o (λ flash. IsNarrowed device (raw_words device bytes.now) flash)) }
{
    raw_images_are_their_words();
    let flash = Flash::from_raw(alloc, device, bytes)?;
    Ok(flash.narrow(device).ok())
}
