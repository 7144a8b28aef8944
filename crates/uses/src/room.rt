//! Shows `elf_load`.

ghost use Rattle.std.specs.Prelude.{◌≡◌, ◌+◌, ◌-◌, true, None, IfOk};
ghost use Rattle.std.specs.Option.{unwrap_or};
ghost use Rattle.avr_model.specs.Devices.{io_end, ramend};
ghost use Rattle.elf_load.specs.Elf.{is_elf, elf_fault, static_end};

use avr_model::device::Device;
use elf_load::{ElfFault, load};
use std::alloc::Global;

/// How many bytes of a device's SRAM lie above the static data of an ELF file.
pub fn room(alloc: Global, device: Device, bytes: &[u8]) -> Result<u16, ElfFault>
    requires { is_elf bytes.now ≡ true }
    ensures loads { IfOk result (λ _. elf_fault device bytes.now ≡ None) }
    ensures room { IfOk result (λ n. n ≡ ramend device + 1 - unwrap_or (static_end device bytes.now) (io_end device + 1)) }
{
    let loaded = load(alloc, device, bytes)?;
    let end = loaded.static_end.unwrap_or(device.io_end() + 1);
    Ok((device.ramend() + 1).saturating_sub(end))
}
