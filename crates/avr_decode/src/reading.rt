//! The decoded form of a program's words.

ghost use Rattle.std.specs.Prelude.{◌≤◌, IfOk, length};
ghost use Rattle.avr_model.specs.Devices.{IsFlash, image_of};
ghost use Rattle.avr_model.specs.Image.{AreErased};
ghost use Rattle.avr_decode.specs.Reading.{AreReadings};

use crate::fixed::is_fixed;
use crate::program::instruction;
use crate::scratch::is_scratch;
use avr_model::device::Device;
use avr_model::instruction::Instr;
use std::alloc::{AllocError, Global};

/// The decoded form of one word.
#[derive(Clone, Copy)]
pub struct Reading {
    /// The instruction; `None` if the word is undefined.
    pub instruction: Option<Instr>,
    /// Whether it is a fixed store: its pointer is surely loaded just before.
    pub is_fixed: bool,
    /// Whether a push there is a scratch push: it makes room for a compiler's small frame.
    pub is_scratch: bool,
}

/// The number of words up to the last one that is not erased.
pub fn written(words: &[u16]) -> usize
    ensures within { result ≤ length words.now }
    ensures erased { AreErased words.now result (length words.now) }
{
    let mut count = words.len();
    while count > 0 && words[count - 1] == 0xFFFF {
        count -= 1;
    }
    count
}

impl Reading {
    /// The decoded form of each word up to the last one that is not erased. `words` are those of the device's flash, modulo whose number
    /// addresses count.
    pub fn all(alloc: Global, device: Device, words: &[u16]) -> Result<Vec<Reading>, AllocError>
        requires { IsFlash (image_of device words.now) }
        ensures { IfOk result (λ v. AreReadings (image_of device words.now) v.items) }
    {
        let count = written(words);
        let mut readings = Vec::with_capacity(alloc, count)?;
        for a in 0..count {
            readings.push(Reading {
                instruction: instruction(device, words, a),
                is_fixed: is_fixed(device, words, a as u32),
                is_scratch: is_scratch(device, words, a as u32),
            })?;
        }
        Ok(readings)
    }
}
