//! The choice of a trial at each step.

ghost use Rattle.std.specs.Prelude.{◌≡◌, ◌-◌, ◌%◌, ◌/◌, ◌==◌, length, slice_get};
ghost use Rattle.std.specs.List.{filter};
ghost use Rattle.guided_trials.specs.Numbers as numbers;
ghost use Rattle.guided_trials.specs.Choosing as spec;

use crate::guide::{Candidate, Guide, TrialMoment};
use crate::numbers::{high, low, middle, next};
use avr_decode::Instr;
use avr_machine::{Choice, Menu};
use flash_image::Flash;

// The mask by which trial `t` changes its byte: a power of two less one.
fn held_bits(t: u32) -> u16
    ensures { result ≡ spec.hold t - 1 }
{
    match t % 4 {
        0 => 0,
        1 => 7,
        2 => 63,
        _ => 4095,
    }
}

// Whether trial `t` may change its byte at this number.
fn is_change(t: u32, number: u64) -> bool
    ensures { result ≡ (numbers.low number % spec.hold t == 0) }
{
    low(number) & held_bits(t) == 0
}

// Whether trial `t` takes an interrupt by chance at this number.
fn is_chance(t: u32, number: u64) -> bool
    ensures { result ≡ (numbers.high number / 4 % spec.rate t == 0) }
{
    let high = high(number) / 4;
    match t / 4 % 4 {
        0 => high % 64 == 0,
        1 => high % 8 == 0,
        2 => high % 512 == 0,
        _ => high % 4096 == 0,
    }
}

// Whether the instruction may read an input.
fn is_input(instr: &Instr) -> bool
    ensures { result ≡ spec.is_input instr.now }
{
    match instr {
        Instr::In(_, _) | Instr::Lds(_, _) | Instr::Ld(_, _) => true,
        Instr::Ldd(_, _, _) | Instr::Sbic(_, _) | Instr::Sbis(_, _) => true,
        _ => false,
    }
}

// Whether the instruction at a word address may read an input.
fn reads(flash: &Flash, pc: u32) -> bool
    ensures { result ≡ spec.reads flash.now pc }
{
    match flash.instruction(pc) {
        Some(instr) => is_input(&instr),
        None => false,
    }
}

/// The moment after this one, at a word address.
#[inline(always)]
pub fn after(flash: &Flash, guide: &Guide, t: u32, moment: TrialMoment, pc: u32) -> TrialMoment
    ensures { result ≡ spec.after flash.now guide.now t moment pc }
{
    let number = next(moment.number);
    let byte = if is_change(t, number) && reads(flash, pc) {
        guide.bytes.member(u32::from(middle(number)))
    } else {
        moment.byte
    };
    TrialMoment { number, byte }
}

// How far the stack pointer has fallen below its place at reset.
fn fallen(flash: &Flash, sp: u16) -> u16
    ensures { result ≡ spec.fallen flash.now sp }
{
    flash.device().ramend().wrapping_sub(sp)
}

// Whether the interrupt is in the menu.
fn stands(menu: &Menu, candidate: &Candidate) -> bool
    ensures { result ≡ spec.stands menu.now candidate.now }
{
    menu.has(Choice::Take(candidate.vector, candidate.clears))
}

// Whether the stack with the interrupt's need reaches the bound.
fn is_wanted(guide: &Guide, depth: u16, candidate: &Candidate) -> bool
    ensures { result ≡ spec.is_wanted guide.now depth candidate.now }
{
    let need = candidate.need;
    let fall = u64::from(depth) + u64::from(guide.back);
    u64::from(guide.bound) <= fall + u64::from(need)
}

// The first interrupt in the menu that is wanted.
fn wanted(guide: &Guide, menu: &Menu, depth: u16) -> Option<Candidate>
    ensures { result ≡ spec.wanted_at guide.now depth (spec.stands menu.now) }
{
    if !guide.takes.reach(guide.bound, depth, guide.back) {
        return None;
    }
    for candidate in guide.takes.as_slice() {
        if stands(menu, candidate) && is_wanted(guide, depth, candidate) {
            return Some(*candidate);
        }
    }
    None
}

// The number of interrupts in the menu.
fn count(guide: &Guide, menu: &Menu) -> usize
    ensures { result ≡ length (filter (spec.stands menu.now) guide.now.takes) }
{
    let mut count = 0;
    for candidate in guide.takes.as_slice() {
        if stands(menu, candidate) {
            count += 1;
        }
    }
    count
}

// The interrupt of this number among those in the menu.
fn standing(guide: &Guide, menu: &Menu, number: usize) -> Option<Candidate>
    ensures { result ≡ slice_get (filter (spec.stands menu.now) guide.now.takes) number }
{
    let mut before = 0;
    for candidate in guide.takes.as_slice() {
        if stands(menu, candidate) {
            if before == number {
                return Some(*candidate);
            }
            before += 1;
        }
    }
    None
}

// The interrupt taken by chance.
fn by_chance(guide: &Guide, menu: &Menu, t: u32, number: u64) -> Option<Candidate>
    ensures { result ≡ spec.by_chance t number (filter (spec.stands menu.now) guide.now.takes) }
{
    if !is_chance(t, number) {
        return None;
    }
    let count = count(guide, menu);
    if count == 0 {
        return None;
    }
    standing(guide, menu, usize::from(middle(number)) % count)
}

// The interrupt to take.
#[inline(always)]
fn taken(flash: &Flash, guide: &Guide, t: u32, number: u64, menu: &Menu) -> Option<Candidate>
    ensures { result ≡ spec.taken_at guide.now t number (spec.fallen flash.now menu.now.sp) (spec.stands menu.now) }
{
    if !menu.takes {
        return None;
    }
    if high(number) % 4 != 0 {
        let wanted = wanted(guide, menu, fallen(flash, menu.sp));
        if wanted.is_some() {
            return wanted;
        }
    }
    by_chance(guide, menu, t, number)
}

/// The choice from a menu; `now` is the next moment.
#[inline(always)]
pub fn chosen(flash: &Flash, guide: &Guide, t: u32, now: TrialMoment, menu: &Menu) -> Choice
    ensures { result ≡ spec.choice_by guide.now t now (spec.fallen flash.now menu.now.sp) (spec.stands menu.now) }
{
    match taken(flash, guide, t, now.number, menu) {
        Some(candidate) => Choice::Take(candidate.vector, candidate.clears),
        None => Choice::Go(now.byte, now.byte),
    }
}
