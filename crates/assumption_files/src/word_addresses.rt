//! Word addresses in the texts of a device.

ghost use Rattle.std.specs.Prelude.{◌≡◌, ◌≤◌, OnOk, OnErr};
ghost use Rattle.std.specs.Option.{option_map};
ghost use Rattle.avr_model.specs.Devices.{word_digits};
ghost use Rattle.text_base.specs.Writing.{with_word};
ghost use Rattle.assumption_files.specs.Spelling.{word_address_text};
ghost use Rattle.assumption_files.specs.Reading.{word_address_at};

use avr_model::device::Device;
use line_reading::hex_word;
use std::alloc::AllocError;
use text_base::{LineWriter, Words};

/// The number of hexadecimal digits of a word address in texts of the device, 4 or 5.
#[tactic(auto, using(crate::proofs::Numbers::least_digits, crate::proofs::Numbers::most_digits))]
pub(crate) fn word_digits(device: Device) -> usize
    ensures value { result ≡ word_digits device }
    ensures least { 4 ≤ result }
    ensures most { result ≤ 5 }
{
    usize::from(device.word_digits())
}

/// Reads the next word as a word address in texts of the device.
#[tactic(auto, using(crate::proofs::Numbers::five_fit))]
pub fn word_address_of(device: Device, words: &mut Words<'_>) -> Option<u32>
    ensures { option_map (λ a. (a, words.new)) result ≡ word_address_at device words.old }
{
    let address = hex_word(words, word_digits(device))?;
    Some(address as u32)
}

/// Writes a word address as a word in texts of the device.
pub fn write_word_address(
    out: &mut LineWriter,
    device: Device,
    address: u32,
) -> Result<(), AllocError>
    ensures written { OnOk result (out.new ≡ with_word out.old (word_address_text device address)) }
    ensures refused { OnErr result (out.new ≡ out.old) }
{
    out.hex(address, word_digits(device))
}
