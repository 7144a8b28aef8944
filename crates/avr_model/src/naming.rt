//! Devices by their names.

ghost use Rattle.std.specs.Prelude.{◌≡◌, ◌==◌, ◌<◌, ◌≤◌, IfSome, find};
ghost use Rattle.std.specs.List.{position_from};
ghost use Rattle.std.specs.Option.{option_copied};
ghost use Rattle.std.specs.Str.{bytes_eq};
ghost use Rattle.avr_model.specs.declared.device_table.TheConstants.{CLASSES, NAMES};
ghost use Rattle.avr_model.specs.Names.{trimmed, class_of, device_of_class, device_named};

use crate::device::Device;
use crate::device_table::{CLASSES, LAST_CLASS, NAMES};
use crate::names::{LONGEST, Name};

// Where the zeros behind a name begin.
fn end_of(text: &[u8; LONGEST]) -> Option<usize>
    ensures end { result ≡ position_from (λ byte. byte == 0) 0 text.now }
    ensures bound { IfSome result (λ end. end ≤ 14) }
{
    text.iter().position(|&byte| byte == 0)
}

// A name of the table, without the zeros behind it.
#[tactic(auto, unfolding(crate::specs::Names::trimmed))]
fn trimmed(text: &[u8; LONGEST]) -> &[u8]
    ensures { result.now ≡ trimmed text.now }
{
    match end_of(text) {
        Some(end) => &text[..end],
        None => text,
    }
}

// The index of the class with this name.
fn index_of(name: &[u8]) -> Option<usize>
    ensures index { result ≡ position_from (λ class. bytes_eq (trimmed class) name.now) 0 CLASSES }
    ensures bound { IfSome result (λ index. index < 256) }
{
    CLASSES.iter().position(|class| trimmed(class) == name)
}

// The row of this name.
fn row_of(name: &[u8]) -> Option<&'static Name>
    ensures { option_copied result ≡ find (λ n. bytes_eq (trimmed n.text) name.now) NAMES }
{
    NAMES.iter().find(|named| trimmed(&named.text) == name)
}

/// The device's name in texts: devices with equal rows have one.
#[tactic(auto, unfolding(crate::specs::Names::class_of))]
pub fn class_of(device: Device) -> &'static [u8]
    ensures { result.now ≡ class_of device }
{
    match CLASSES.get(device.index()) {
        Some(class) => trimmed(class),
        None => trimmed(&LAST_CLASS),
    }
}

/// The device with this name in texts.
#[tactic(auto, unfolding(crate::specs::Names::device_of_class))]
pub fn device_of_class(name: &[u8]) -> Option<Device>
    ensures { result ≡ device_of_class name.now }
{
    match index_of(name) {
        Some(index) => Some(Device::at(index as u8)),
        None => None,
    }
}

/// The device that a name means.
#[tactic(auto, unfolding(crate::specs::Names::device_named))]
pub fn device_named(name: &[u8]) -> Option<Device>
    ensures { result ≡ device_named name.now }
{
    match row_of(name) {
        Some(named) => Some(Device::at(named.index)),
        None => None,
    }
}
