//! The input bytes that a firmware's tests distinguish.

ghost use Rattle.std.specs.Prelude.{◌≡◌, ◌<◌, ◌==◌, ◌++◌, IfOk, OnOk};
ghost use Rattle.avr_model.specs.Assumptions.{lists};
ghost use Rattle.avr_model.specs.Devices.{device_of, words_of};
ghost use Rattle.avr_model.specs.Sites.{instruction_at};
ghost use Rattle.guided_trials.specs.Telling as spec;

use crate::guide::ToldBytes;
use avr_decode::{ImmediateOp, Instr};
use avr_model::listed::Listed;
use flash_image::Flash;
use std::alloc::{AllocError, Global};

// Marks the byte.
fn mark(told: &mut [bool; 256], byte: u8)
    ensures { spec.MarksToo told.old told.new (λ b. byte == b) }
{
    told[usize::from(byte)] = true;
}

// Marks the bytes that are always tried.
fn mark_fills(told: &mut [bool; 256])
    ensures { spec.MarksToo told.old told.new (lists spec.fills) }
{
    mark(told, 0x00);
    mark(told, 0xFF);
    mark(told, 0x55);
    mark(told, 0xAA);
    mark(told, 0x01);
    mark(told, 0x80);
    mark(told, 0x7F);
    mark(told, 0xFE);
}

// Marks a byte with bit `index` set, and one with all others set.
fn mark_bit(told: &mut [bool; 256], index: u16)
    requires { index < 8 }
    ensures { spec.MarksToo told.old told.new (lists (spec.of_bit index)) }
{
    let byte = 1u8 << index;
    mark(told, byte);
    mark(told, 255 - byte);
}

// Marks the bytes that an instruction distinguishes.
fn mark_told(told: &mut [bool; 256], instr: &Instr)
    ensures { spec.MarksToo told.old told.new (lists (spec.told instr.now)) }
{
    match instr {
        Instr::Immediate(ImmediateOp::Cpi, _, byte) => {
            mark(told, *byte);
            mark(told, byte.wrapping_sub(1));
        }
        Instr::Immediate(ImmediateOp::Subi, _, byte) => mark(told, *byte),
        Instr::Sbrc(_, index) | Instr::Sbrs(_, index) => mark_bit(told, index.get()),
        Instr::Sbic(_, index) | Instr::Sbis(_, index) => mark_bit(told, index.get()),
        _ => {}
    }
}

// Marks the bytes that the word at an address distinguishes, if it is an instruction.
fn mark_at(told: &mut [bool; 256], flash: &Flash, at: u32)
    ensures { spec.MarksToo told.old told.new (lists (spec.told_if (instruction_at flash.now at))) }
{
    if let Some(instr) = flash.instruction(at) {
        mark_told(told, &instr);
    }
}

// Marks the bytes that the words of flash distinguish.
fn mark_words(told: &mut [bool; 256], flash: &Flash)
    ensures { spec.MarksToo told.old told.new (spec.is_told flash.now (words_of (device_of flash.now))) }
{
    for at in 0..flash.device().words() {
        mark_at(told, flash, at);
    }
}

// Appends the byte if it is marked.
fn keep(bytes: &mut Vec<u8>, told: &[bool; 256], byte: u8) -> Result<(), AllocError>
    ensures { OnOk result (bytes.new.items ≡ bytes.old.items ++ spec.if_passing (spec.is_marked told.now) byte) }
{
    if told[usize::from(byte)] {
        bytes.push(byte)?;
    }
    Ok(())
}

// The marked bytes, ascending.
fn marked(alloc: Global, told: &[bool; 256]) -> Result<Vec<u8>, AllocError>
    ensures { IfOk result (λ bytes. bytes.items ≡ spec.passing 256 (spec.is_marked told.now)) }
{
    let mut bytes = Vec::new(alloc);
    for byte in 0..256u16 {
        keep(&mut bytes, told, byte as u8)?;
    }
    Ok(bytes)
}

/// The input bytes of trials, ascending: eight that are always tried, and those that the words of flash distinguish.
pub fn telling(alloc: Global, flash: &Flash) -> Result<ToldBytes, AllocError>
    ensures { IfOk result (λ bytes. bytes ≡ spec.telling flash.now) }
{
    let mut told = [false; 256];
    mark_fills(&mut told);
    mark_words(&mut told, flash);
    let bytes = marked(alloc, &told)?;
    Ok(ToldBytes::new(Listed::new(bytes)))
}
