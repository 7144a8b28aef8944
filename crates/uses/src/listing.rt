//! Shows `avr_decode`.

ghost use Rattle.std.specs.Prelude.{◌≡◌, None, IfOk, IfSome};
ghost use Rattle.avr_model.specs.declared.instruction.Instr.{Instr};
ghost use Rattle.avr_model.specs.Table.{IsDecoded, rows_of};
ghost use Rattle.avr_model.specs.Text.{text_of};

use avr_decode::{decode, text};
use avr_model::device::Device;
use std::alloc::{AllocError, Global};

/// The text of the instruction with these two words at word `at` of a device: that of the table's one row that matches. `None` if none does.
pub fn listed(
    alloc: Global,
    device: Device,
    word: u16,
    next: u16,
    at: u32,
) -> Result<Option<Vec<u8>>, AllocError>
    ensures text { IfOk result (λ o. IfSome o (λ text. (instr : Instr) × IsDecoded word next instr × (text.items ≡ text_of device instr at))) }
    ensures none { IfOk result (λ o. o ≡ None → rows_of word ≡ 0) }
{
    match decode(word, next) {
        Some(instr) => Ok(Some(text(alloc, device, &instr, at)?)),
        None => Ok(None),
    }
}
