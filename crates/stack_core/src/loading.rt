//! Firmware and assumptions from files.

ghost use Rattle.std.specs.Prelude.{◌≡◌, IfOk, false, length};
ghost use Rattle.avr_model.specs.Devices.{limit_of};
ghost use Rattle.stack_core.specs.Reading.{bytes_of};
ghost use Rattle.stack_core.specs.Answering.{LoadsBy, LoadsAs, NarrowedTo, LoadsOn, ListsAs, PreparesAs, IsSameFirmware};

use crate::reply::Reply;
use assumption_files::read as read_list;
use elf_load::{Loaded, is_elf, load};
use flash_image::laws::{narrowing_is_exact, raw_images_are_their_words};
use flash_image::{Device, Flash, Names, Outside, RawFault};
use replies::raw::RawRefusal;
use replies::status::Status;
use replies::texts;
use std::alloc::{AllocError, Global};
use vector_table::Assumptions;

/// What a command works on: flash with names and the end of static data, under assumptions; or the reply to a refused file.
#[derive(Drop)]
pub enum Prepared {
    Ready(Loaded, Assumptions),
    Refused(Reply),
}

/// The result of loading a firmware file: flash with names and the end of static data, or a refusal.
#[derive(Drop)]
pub enum Loading {
    Loaded(Loaded),
    Refused(Reply),
}

// The flash of a raw file, which has no names and no static data.
fn raw_image(alloc: Global, device: Device, bytes: &[u8]) -> Result<Loading, AllocError>
    ensures { IfOk result (λ i. LoadsBy device false bytes.now i) }
{
    raw_images_are_their_words();
    match Flash::from_raw(alloc, device, bytes) {
        Ok(flash) => Ok(Loading::Loaded(Loaded {
            flash,
            names: Names::new(alloc),
            static_end: None,
        })),
        Err(RawFault::OddLength) => Ok(Loading::Refused(Reply {
            status: Status::BadFirmware,
            text: texts::raw_fault(alloc, RawRefusal::OddLength)?,
        })),
        Err(RawFault::TooLong) => Ok(Loading::Refused(Reply {
            status: Status::BadFirmware,
            text: texts::raw_fault(alloc, RawRefusal::TooLong)?,
        })),
        Err(RawFault::Memory) => Err(AllocError),
    }
}

// The firmware of a file for a device, before it is narrowed.
fn whole(alloc: Global, device: Device, bytes: &[u8]) -> Result<Loading, AllocError>
    ensures { IfOk result (λ i. LoadsAs device bytes.now i) }
{
    if !is_elf(bytes) {
        return raw_image(alloc, device, bytes);
    }
    match load(alloc, device, bytes) {
        Ok(loaded) => Ok(Loading::Loaded(loaded)),
        Err(fault) => Ok(Loading::Refused(Reply {
            status: Status::BadFirmware,
            text: texts::elf_refused(alloc, &fault)?,
        })),
    }
}

// The same firmware on a device.
fn narrowed(alloc: Global, device: Device, loaded: Loaded) -> Result<Loading, AllocError>
    requires { length loaded.flash.words ≡ limit_of device }
    ensures { IfOk result (λ i. NarrowedTo device loaded i) }
{
    narrowing_is_exact();
    let Loaded {
        flash,
        names,
        static_end,
    } = loaded;
    match flash.narrow(device) {
        Ok(flash) => Ok(Loading::Loaded(Loaded {
            flash,
            names,
            static_end,
        })),
        Err(Outside(word)) => Ok(Loading::Refused(Reply {
            status: Status::BadFirmware,
            text: texts::firmware_outside(alloc, device, word)?,
        })),
    }
}

// The firmware of a file for a device.
fn loaded(alloc: Global, device: Device, bytes: &[u8]) -> Result<Loading, AllocError>
    ensures { IfOk result (λ i. LoadsOn device bytes.now i) }
{
    narrowing_is_exact();
    match whole(alloc, device, bytes)? {
        Loading::Loaded(loaded) => narrowed(alloc, device, loaded),
        Loading::Refused(reply) => Ok(Loading::Refused(reply)),
    }
}

// The same firmware, with its widening thresholds if the list has the line `pairs`, so that no rule works them out at each look.
fn marked(mut loaded: Loaded, assumptions: &Assumptions) -> Result<Loaded, AllocError>
    ensures { IfOk result (IsSameFirmware loaded) }
{
    if !assumptions.has_pairs() {
        return Ok(loaded);
    }
    match loaded.flash.keep_marks() {
        Ok(()) => Ok(loaded),
        Err(fault) => {
            drop(loaded);
            Err(fault)
        }
    }
}

// The same firmware under the assumptions of an optional file.
fn listed(alloc: Global, loaded: Loaded, list: &Option<Vec<u8>>) -> Result<Prepared, AllocError>
    ensures { IfOk result (λ p. ListsAs loaded (bytes_of list.now) p) }
{
    let Some(bytes) = list else {
        return Ok(Prepared::Ready(loaded, Assumptions::empty(alloc)));
    };
    match read_list(alloc, loaded.flash.device(), bytes) {
        Ok(assumptions) => {
            let loaded = marked(loaded, &assumptions)?;
            Ok(Prepared::Ready(loaded, assumptions))
        }
        Err(fault) => {
            drop(loaded);
            Ok(Prepared::Refused(Reply {
                status: Status::BadAssumptions,
                text: texts::assumptions_refused(alloc, &fault)?,
            }))
        }
    }
}

/// The firmware of a file for a device, under the assumptions of an optional file.
pub fn prepare(
    alloc: Global,
    device: Device,
    firmware: &[u8],
    list: &Option<Vec<u8>>,
) -> Result<Prepared, AllocError>
    ensures { IfOk result (λ p. PreparesAs device firmware.now (bytes_of list.now) p) }
{
    match loaded(alloc, device, firmware)? {
        Loading::Loaded(loaded) => listed(alloc, loaded, list),
        Loading::Refused(reply) => Ok(Prepared::Refused(reply)),
    }
}
