//! The rule of fixed stores: their pointer is loaded a few words before.

ghost use Rattle.std.specs.Prelude.{◌≡◌, ◌<◌, ◌^◌, ◌==◌, IfSome, if◌then◌else◌};
ghost use Rattle.avr_model.specs.Devices.{IsFlash, image_of};
ghost use Rattle.avr_model.specs.Image.{word_at};
ghost use Rattle.avr_model.specs.Sites.{leaves, sets, store_pointer, instruction_at, is_fixed};
ghost use Rattle.avr_model.specs.Table.{length_of};
ghost use Rattle.avr_decode.specs.Ways.{set_before, told_before, loads_both, may_load};

use crate::decoding::length;
use crate::pointers::{base_register, pointer_register};
use crate::program::{WORDS, instruction, word};
use crate::register_set::writes;
use avr_model::device::Device;
use avr_model::instruction::{BinaryOp, ImmediateOp, Instr};

// The greatest distance in words from a pointer's load to its store.
const FARTHEST: usize = 32;

// Whether it is a jump, a call, a return, a branch or a skip.
pub(crate) fn leaves(instr: &Instr) -> bool
    ensures { result ≡ leaves instr.now }
{
    match *instr {
        Instr::Binary(BinaryOp::Cpse, _, _) => true,
        Instr::Ijmp | Instr::Icall | Instr::Eijmp | Instr::Eicall => true,
        Instr::Ret | Instr::Reti => true,
        Instr::Jmp(_) | Instr::Call(_) | Instr::Rjmp(_) | Instr::Rcall(_) => true,
        Instr::Brbs(_, _) | Instr::Brbc(_, _) => true,
        Instr::Sbic(_, _) | Instr::Sbis(_, _) | Instr::Sbrc(_, _) | Instr::Sbrs(_, _) => true,
        _ => false,
    }
}

/// Whether the instruction sets the register other than through a data address.
pub fn sets(instr: &Instr, register: u16) -> bool
    ensures { result ≡ sets register instr.now }
{
    let set = writes(instr).bits;
    register < 64 && (set >> register) & 1 == 1
}

// The low register of the pointer of `st` or `std`.
fn store_pointer(instr: &Instr) -> Option<u16>
    ensures value { result ≡ store_pointer instr.now }
    ensures pair { IfSome result (λ r. r < 31) }
{
    match *instr {
        Instr::Std(base, _, _) => Some(base_register(base)),
        Instr::St(pointer, _) => Some(pointer_register(pointer)),
        _ => None,
    }
}

// For each register of a store's pointer, whether the last instruction on a path that sets it is `ldi`; none if no instruction sets it.
#[derive(Clone, Copy)]
struct PointerTold {
    low: Option<bool>,
    high: Option<bool>,
}

// Whether the last instruction that sets the register is `ldi`; `behind` is the answer for the path after this instruction.
fn set_before(register: u16, instr: &Instr, behind: Option<bool>) -> Option<bool>
    ensures { result ≡ set_before register instr.now behind }
{
    if behind.is_none() && sets(instr, register) {
        Some(matches!(*instr, Instr::Immediate(ImmediateOp::Ldi, _, _)))
    } else {
        behind
    }
}

// The answer for the path from word `at`; `one` and `two` are those from one and from two words later. `None` if the path meets an
// undefined word, branches off or misses the store.
fn told_from(
    device: Device,
    words: &[u16],
    at: usize,
    register: u16,
    one: Option<PointerTold>,
    two: Option<PointerTold>,
) -> Option<PointerTold>
    requires flash { IsFlash (image_of device words.now) }
    requires room { at < 2 ^ 33 }
    requires register { register < 31 }
    ensures { result ≡ told_before register (instruction_at (image_of device words.now) at) (if length_of (word_at (image_of device words.now) at) == 1 then one else two) }
{
    let instr = instruction(device, words, at)?;
    let rest = if length(word(device, words, at)) == 1 {
        one
    } else {
        two
    };
    let told = rest?;
    if leaves(&instr) {
        return None;
    }
    Some(PointerTold {
        low: set_before(register, &instr, told.low),
        high: set_before(register + 1, &instr, told.high),
    })
}

// Whether the path loads both registers. A register that it does not set counts as `unset`: a longer path may load it.
fn loads(told: Option<PointerTold>, unset: bool) -> bool
    ensures { result ≡ (if unset then may_load told else loads_both told) }
{
    match told {
        Some(told) => told.low.unwrap_or(unset) && told.high.unwrap_or(unset),
        None => false,
    }
}

/// Whether word `a` is `st` or `std` with its pointer surely loaded just before. From some word 1 to 32 words before it, decoding forward
/// reaches it exactly, through defined words without a jump, call, return, branch or skip, and the last instruction there that sets each
/// register of the pointer is `ldi`. `words` are those of the device's flash, modulo whose number addresses count. Source: own.
pub fn is_fixed(device: Device, words: &[u16], a: u32) -> bool
    requires { IsFlash (image_of device words.now) }
    ensures { result ≡ is_fixed (image_of device words.now) a }
{
    let Some(instr) = instruction(device, words, a as usize) else {
        return false;
    };
    let Some(register) = store_pointer(&instr) else {
        return false;
    };
    // The answers for the paths from one and from two words after the next one; the first ones start at the store and after it.
    let mut one = Some(PointerTold {
        low: None,
        high: None,
    });
    let mut two = None;
    for distance in 1..FARTHEST + 1 {
        let told = told_from(
            device,
            words,
            a as usize + WORDS - distance,
            register,
            one,
            two,
        );
        if loads(told, false) {
            return true;
        }
        two = one;
        one = told;
        if !loads(one, true) && !loads(two, true) {
            return false;
        }
    }
    false
}
