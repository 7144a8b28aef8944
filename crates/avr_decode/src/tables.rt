//! The rule of jump tables: an index is added to a table's address and an `ijmp` or `eijmp` follows.

ghost use Rattle.std.specs.Prelude.{◌≡◌, ◌<◌, ◌≤◌, ◌+◌, ◌^◌, ◌&&◌};
ghost use Rattle.avr_model.specs.Devices.{IsFlash, image_of};
ghost use Rattle.avr_model.specs.Image.{WORDS};
ghost use Rattle.avr_model.specs.Sites.{adds_low, adds_high, is_some_that, is_ijmp, instruction_at, onward, ijmp_from, table_site};

use crate::decoding::length;
use crate::fixed::leaves;
use crate::program::{instruction, word};
use crate::targets::far;
use avr_model::device::Device;
use avr_model::instruction::{ImmediateOp, Instr};

// The greatest number of instructions from the sum to the jump, itself counted.
const MOST: u8 = 16;

/// `subi` of r30, which adds to the low byte of Z.
pub fn adds_low(instr: &Instr) -> bool
    ensures { result ≡ adds_low instr.now }
{
    match instr {
        Instr::Immediate(ImmediateOp::Subi, register, _) => register.get() == 30,
        _ => false,
    }
}

// Whether word `at` and the next one, an `sbci` of r31, add an index to a table's address.
fn adds(device: Device, words: &[u16], at: usize) -> bool
    requires flash { IsFlash (image_of device words.now) }
    requires room { at < 2 ^ 32 }
    ensures { result ≡ (is_some_that adds_low (instruction_at (image_of device words.now) at) && is_some_that adds_high (instruction_at (image_of device words.now) (at + 1))) }
{
    match &instruction(device, words, at) {
        Some(instr) if adds_low(instr) => match &instruction(device, words, at + 1) {
            Some(Instr::Immediate(ImmediateOp::Sbci, register, _)) => register.get() == 31,
            _ => false,
        },
        _ => false,
    }
}

// The word after the instruction of this size at word `at`; `None` if the path branches off.
fn onward(at: u32, size: u16, instr: &Instr) -> Option<u32>
    requires at { at < WORDS }
    requires size { size ≤ 2 }
    ensures { result ≡ onward at size instr.now }
{
    match instr {
        Instr::Jmp(target) => Some(*target),
        Instr::Rjmp(distance) => Some(far(at, distance.get())),
        other => {
            if leaves(other) {
                None
            } else {
                Some(at + u32::from(size))
            }
        }
    }
}

fn is_ijmp(instr: &Instr) -> bool
    ensures { result ≡ is_ijmp instr.now }
{
    matches!(*instr, Instr::Ijmp | Instr::Eijmp)
}

// The word of the `ijmp` or `eijmp` that at most `most` instructions from word `at` reach, itself counted.
#[tactic(auto, using(crate::proofs::JumpTables::none_left, crate::proofs::JumpTables::undefined, crate::proofs::JumpTables::ended, crate::proofs::JumpTables::left, crate::proofs::JumpTables::went_on))]
fn ijmp_from(device: Device, words: &[u16], most: u8, at: u32) -> Option<u32>
    requires at { at < WORDS }
    requires flash { IsFlash (image_of device words.now) }
    ensures { result ≡ ijmp_from (image_of device words.now) most at }
{
    if most == 0 {
        return None;
    }
    let Some(instr) = instruction(device, words, at as usize) else {
        return None;
    };
    if is_ijmp(&instr) {
        return Some(at);
    }
    let Some(next) = onward(at, length(word(device, words, at as usize)), &instr) else {
        return None;
    };
    ijmp_from(device, words, most - 1, device.wrap(next))
}

/// The word of the `ijmp` or `eijmp` of a table site, if one begins at `a`. Word `a` is a `subi` of r30 and the next one an `sbci` of r31. At most 16
/// instructions lead from there to that jump, itself counted, along `jmp` and `rjmp` and without a branch, skip, call, return or undefined
/// word. `words` are those of the device's flash, modulo whose number addresses count. Source: own.
#[tactic(auto, using(crate::proofs::JumpTables::of_32), unfolding(avr_model::specs::Sites::table_site))]
pub fn table_site(device: Device, words: &[u16], a: u32) -> Option<u32>
    requires { IsFlash (image_of device words.now) }
    ensures { result ≡ table_site (image_of device words.now) a }
{
    if adds(device, words, a as usize) {
        let from = device.wrap(a.wrapping_add(2));
        ijmp_from(device, words, MOST, from)
    } else {
        None
    }
}
