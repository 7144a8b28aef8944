//! The words of a device's flash.

ghost use Rattle.std.specs.Prelude.{◌≡◌, ℕ, ◌+◌, ◌*◌, ◌%◌, ◌<◌, ◌≤◌, ◌↔◌, ◌≢◌, List, length, IfOk, MatchResult, MatchOption, IsTrue, is_ok, replicate};
ghost use Rattle.avr_model.specs.Devices.{words_of, limit_of, device_of, image_of, IsFlash};
ghost use Rattle.avr_model.specs.Image.{word_at, byte_at, IsRawImage, IsNarrowed, IsOutside, AreErased};
ghost use Rattle.flash_image.specs.Placing.{filled_for, placed};

use avr_decode::Reading;
use avr_model::device::Device;
use std::alloc::{AllocError, Global};
use std::marker::Model;
use thiserror::Error;

/// The flash of a device. Contracts see an image: the device and the words. Word addresses count modulo the number of words, and the
/// low byte of a word comes first.
#[derive(Drop)]
pub struct Flash {
    pub(crate) alloc: Global,
    pub(crate) device: Device,
    pub(crate) words: Vec<u16>,
    // The decoded form of the first words, if it was computed.
    pub(crate) readings: Vec<Reading>,
    // The program's marks, ascending, if they were computed.
    pub(crate) mark_list: Vec<u16>,
}

impl Model for Flash {
    ghost use Rattle.avr_model.specs.Devices.{Image, image_of, IsFlash};
    ghost use Rattle.avr_decode.specs.Reading.{AreReadings};
    ghost use Rattle.flash_image.specs.Marked.{AreMarksKept};

    ghost Value = { Image };

    ghost view = { λ f. image_of f.device f.words.items };

    ghost invariant = { λ f. IsFlash (image_of f.device f.words.items) × AreReadings (image_of f.device f.words.items) f.readings.items × AreMarksKept (image_of f.device f.words.items) f.mark_list.items };
}

/// Why a file is refused as a raw image.
#[derive(Debug, Drop, PartialEq, Eq, Error)]
pub enum RawFault {
    #[error("the length is odd")]
    OddLength,
    #[error("the file is longer than flash")]
    TooLong,
    #[error("no memory is left")]
    Memory,
}

/// The first word behind a device's flash that isn't erased.
#[derive(Clone, Copy, Drop)]
pub struct Outside(pub u32);

// The device whose flash a file for this device fills.
fn filled_for(device: Device) -> Device
    ensures value { result ≡ filled_for device }
    ensures words { words_of result ≡ limit_of device }
{
    if device.words() < 16384 {
        Device::M328
    } else {
        device
    }
}

impl Flash {
    /// The flash that a file for this device fills, with all words FFFF: as many as texts of the device admit.
    pub fn erased(alloc: Global, device: Device) -> Result<Flash, AllocError>
        ensures words { IfOk result (λ flash. flash ≡ image_of (filled_for device) (replicate (limit_of device) 0xFFFF)) }
        ensures device { IfOk result (λ flash. device_of flash ≡ filled_for device) }
    {
        let words = vec![in alloc; 0xFFFFu16; device.limit() as usize]?;
        Ok(Flash {
            alloc,
            device: filled_for(device),
            words,
            readings: Vec::new(alloc),
            mark_list: Vec::new(alloc),
        })
    }

    /// The flash that a file for this device fills, with the words of a raw image, the low byte of each first; the rest is erased. Refuses
    /// files of odd length, and then those longer than flash. Source: own, since a raw file has no address.
    pub fn from_raw(alloc: Global, device: Device, bytes: &[u8]) -> Result<Flash, RawFault>
        ensures image { IfOk result (λ flash. IsRawImage device bytes.now flash.words) }
        ensures device { IfOk result (λ flash. device_of flash ≡ filled_for device) }
        ensures odd { (result ≡ Err RawFault.OddLength) ↔ (length bytes.now % 2 ≡ 1) }
        ensures long { (result ≡ Err RawFault.TooLong) ↔ ((length bytes.now % 2 ≡ 0) × (2 * limit_of device < length bytes.now)) }
    {
        if bytes.len() % 2 == 1 {
            return Err(RawFault::OddLength);
        }
        if bytes.len() > 2 * device.limit() as usize {
            return Err(RawFault::TooLong);
        }
        let Ok(mut flash) = Flash::erased(alloc, device) else {
            return Err(RawFault::Memory);
        };
        flash.place(0, bytes);
        Ok(flash)
    }

    /// The device.
    pub fn device(&self) -> Device
        ensures { result ≡ device_of self.now }
    {
        self.device
    }

    /// All words.
    pub fn words(&self) -> &[u16]
        ensures value { result.now ≡ self.now.words }
        ensures flash { IsFlash self.now }
    {
        self.words.as_slice()
    }

    /// The word at `a`, which counts modulo the number of words.
    #[tactic(auto, using(crate::proofs::Narrowing::inside))]
    pub fn word(&self, a: u32) -> u16
        ensures { result ≡ word_at self.now a }
    {
        self.words[self.device.wrap(a) as usize]
    }

    /// The words of a file in the device's flash, which has at most as many. Refuses with the first word behind that device's last that
    /// isn't FFFF; a refused flash is dropped. Its words are decoded.
    pub fn narrow(mut self, device: Device) -> Result<Flash, Outside>
        requires { length self.words ≡ limit_of device }
        ensures answer { MatchResult result (λ flash. IsNarrowed device self.words flash) (λ fault. IsOutside device self.words fault.0) }
        ensures exact { IsTrue (is_ok result) ↔ AreErased self.words (words_of device) (limit_of device) }
    {
        if let Some(word) = self.first_outside(device) {
            return Err(Outside(word));
        }
        self.readings.clear();
        self.mark_list.clear();
        self.words.truncate(device.words() as usize);
        self.device = device;
        self.decode();
        Ok(self)
    }

    // The first word behind a device's last that isn't FFFF.
    fn first_outside(&self, device: Device) -> Option<u32>
        requires { length self.now.words ≡ limit_of device }
        ensures { MatchOption result (AreErased self.now.words (words_of device) (limit_of device)) (IsOutside device self.now.words) }
    {
        for at in device.words()..device.limit() {
            if self.words[at as usize] != 0xFFFF {
                return Some(at);
            }
        }
        None
    }

    /// The byte at byte address `z`.
    #[tactic(auto, using(crate::proofs::Narrowing::half))]
    pub fn byte(&self, z: u32) -> u8
        requires { z < 2 * words_of (device_of self.now) }
        ensures { result ≡ byte_at self.now.words z }
    {
        let word = self.words[z as usize / 2];
        if z % 2 == 0 {
            (word % 256) as u8
        } else {
            (word / 256) as u8
        }
    }

    /// Puts bytes at the byte addresses from `at` on; every other byte stays.
    pub fn place(&mut self, at: u32, bytes: &[u8])
        requires fits { at + length bytes.now ≤ 2 * length self.old.words }
        ensures count { length self.new.words ≡ length self.old.words }
        ensures device { device_of self.new ≡ device_of self.old }
        ensures bytes { (z : ℕ) → z < 2 * length self.old.words → byte_at self.new.words z ≡ placed at bytes.now self.old.words z }
    {
        self.readings.clear();
        self.mark_list.clear();
        for (i, byte) in bytes.iter().enumerate() {
            set_byte(&mut self.words, at as usize + i, *byte);
        }
    }
}

// Changes the byte at `z` alone.
fn set_byte(words: &mut Vec<u16>, z: usize, byte: u8)
    requires { z < 2 * length words.old.items }
    ensures count { length words.new.items ≡ length words.old.items }
    ensures there { byte_at words.new.items z ≡ byte }
    ensures elsewhere { (k : ℕ) → k ≢ z → byte_at words.new.items k ≡ byte_at words.old.items k }
{
    let word = words[z / 2];
    words[z / 2] = if z % 2 == 0 {
        word / 256 * 256 + byte as u16
    } else {
        byte as u16 * 256 + word % 256
    };
}
