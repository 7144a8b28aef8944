//! The rows that push or go to a computed word, and interrupt entry.

ghost use Rattle.std.specs.Prelude.{◌≡◌, ◌<◌, ◌||◌, None, not, true};
ghost use Rattle.avr_model.specs.Devices.{wrapped};
ghost use Rattle.avr_model.specs.Vectors.{is_vector, watchdog};
ghost use Rattle.avr_model.specs.Assumptions.{jump_line, recur_line};
ghost use Rattle.avr_model.specs.Sites.{is_scratch};
ghost use Rattle.avr_model.specs.State.{fall};
ghost use Rattle.avr_model.specs.Step.{all_inside, unless_listed, unless_within, entering, take, result_of, state_after};
ghost use Rattle.avr_machine.specs.Quiet.{push_answer, register_answer, called_answer, refused_at, computed_word, jump_answer};

use crate::firmware::Firmware;
use crate::flags::{flag_by, lists_word};
use crate::processor::Processor;
use crate::transfers::Z;
use avr_alu::Sreg;
use avr_model::choice::StepResult;
use avr_model::device::EIND;
use avr_model::effect::{Write, Writes};
use vector_table::Assumptions;

// Bytes that are pushed, and the stack pointer after them.
#[derive(Clone, Copy)]
struct Pushed<'a> {
    writes: &'a [Write],
    sp: u16,
}

impl Processor {
    // Whether all writes go to SRAM.
    #[inline(always)]
    fn all_inside(&self, writes: &[Write]) -> bool
        ensures { result ≡ all_inside self.now.device writes.now }
    {
        for write in writes {
            if !self.is_sram(write.address) {
                return false;
            }
        }
        true
    }

    // The answer to a push and transfer: overflow, unless it is a refused call; then the flags; then done. If `guarded`, the
    // pushed bytes become live.
    #[tactic(auto, unfolding(avr_model::specs::Step::memory_after))]
    #[inline(always)]
    fn push_step(
        &mut self,
        guarded: bool,
        transfer: Option<u32>,
        pushed: &Pushed<'_>,
        target: u32,
    ) -> StepResult
        ensures answer { result ≡ result_of (push_answer guarded self.old transfer pushed.now.writes.now pushed.now.sp target) }
        ensures state { self.new ≡ state_after self.old (push_answer guarded self.old transfer pushed.now.writes.now pushed.now.sp target) }
    {
        if !self.all_inside(pushed.writes) && transfer.is_none() {
            return StepResult::Overflow(self.pc);
        }
        let live = self.memory.live_write(pushed.writes);
        match flag_by(self.pc, live, None, transfer, false) {
            Some(flag) => StepResult::Flagged(flag),
            None => {
                self.memory.push(pushed.writes, guarded);
                self.sp = pushed.sp;
                self.is_open = false;
                self.go_to(target);
                StepResult::Done
            }
        }
    }

    /// `push`, guarded unless it makes a compiler's small frame or has a `scratch` line.
    pub fn push(&mut self, firmware: &Firmware<'_>, r: u16) -> StepResult
        requires { r < 32 }
        ensures answer { result ≡ result_of (register_answer firmware.now.flash.now firmware.now.assumptions.now self.old r) }
        ensures state { self.new ≡ state_after self.old (register_answer firmware.now.flash.now firmware.now.assumptions.now self.old r) }
    {
        let pushes = Writes::one(Write {
            address: self.sp,
            byte: self.register(r),
        });
        let pc = self.pc;
        let guarded = !(firmware.flash.is_scratch(pc) || firmware.assumptions.has_scratch(pc));
        let pushed = Pushed {
            writes: pushes.as_slice(),
            sp: self.device.minus_sp(self.sp, 1),
        };
        let next = self.further(1);
        self.push_step(guarded, None, &pushed, next)
    }

    // The word that a call enters, if it has a `recur` line that permits no call so deep.
    fn deep_call(&self, assumptions: &Assumptions, word: u32) -> Option<u32>
        ensures { result ≡ unless_within (recur_line assumptions.now word) (fall self.now) word }
    {
        match assumptions.recur(word) {
            Some(depth) if depth < self.fall() => Some(word),
            _ => None,
        }
    }

    // The word that a call enters, if that is refused: it is unlisted, or called too deep. A call of the next word that makes a compiler's
    // small frame enters none.
    fn refused(&self, firmware: &Firmware<'_>, unlisted: Option<u32>, word: u32) -> Option<u32>
        ensures { result ≡ refused_at firmware.now.flash.now firmware.now.assumptions.now self.now unlisted word }
    {
        match unlisted {
            Some(word) => Some(word),
            None if firmware.flash.is_scratch(self.pc) => None,
            None => self.deep_call(firmware.assumptions, word),
        }
    }

    /// A call of a word, which `unlisted` is if the site does not list it; pushes the return address `back`.
    pub fn call(
        &mut self,
        firmware: &Firmware<'_>,
        unlisted: Option<u32>,
        target: u32,
        back: u32,
    ) -> StepResult
        ensures answer { result ≡ result_of (called_answer firmware.now.flash.now firmware.now.assumptions.now self.old unlisted target back) }
        ensures state { self.new ≡ state_after self.old (called_answer firmware.now.flash.now firmware.now.assumptions.now self.old unlisted target back) }
    {
        let pushes = self.way_back(back);
        let count = self.device.back();
        let pushed = Pushed {
            writes: &pushes[..usize::from(count)],
            sp: self.device.minus_sp(self.sp, count),
        };
        let is_scratch = firmware.flash.is_scratch(self.pc);
        let refused = self.refused(firmware, unlisted, self.wrap(target));
        self.push_step(!is_scratch, refused, &pushed, target)
    }

    // The word in Z; if `extended`, the one in EIND and Z.
    fn computed_word(&self, extended: bool) -> u32
        ensures { result ≡ computed_word self.now extended }
    {
        let z = u32::from(self.pair(Z));
        if extended {
            65536 * u32::from(self.register(EIND)) + z
        } else {
            z
        }
    }

    /// The word in Z, or in EIND and Z, and the word of flash that it stands for if the site does not list it.
    pub fn computed(&self, assumptions: &Assumptions, extended: bool) -> (u32, Option<u32>)
        ensures target { result.0 ≡ computed_word self.now extended }
        ensures unlisted { result.1 ≡ unless_listed (jump_line assumptions.now self.now.pc) (wrapped self.now.device (computed_word self.now extended)) }
    {
        let target = self.computed_word(extended);
        let word = self.wrap(target);
        match assumptions.jumps(self.pc) {
            Some(words) if !lists_word(words, word) => (target, Some(word)),
            _ => (target, None),
        }
    }

    /// `ijmp`, or `eijmp`.
    pub fn jump_computed(&mut self, assumptions: &Assumptions, extended: bool) -> StepResult
        ensures answer { result ≡ result_of (jump_answer self.old (unless_listed (jump_line assumptions.now self.old.pc) (wrapped self.old.device (computed_word self.old extended))) (computed_word self.old extended)) }
        ensures state { self.new ≡ state_after self.old (jump_answer self.old (unless_listed (jump_line assumptions.now self.old.pc) (wrapped self.old.device (computed_word self.old extended))) (computed_word self.old extended)) }
    {
        let (target, unlisted) = self.computed(assumptions, extended);
        match flag_by(self.pc, None, None, unlisted, false) {
            Some(flag) => StepResult::Flagged(flag),
            None => {
                self.go_to(target);
                StepResult::Done
            }
        }
    }

    /// Enters an interrupt that may be entered, unless the vector's word has a `never` line: pushes the return address and clears I.
    pub fn take(&mut self, assumptions: &Assumptions, vector: u8, clears: bool) -> StepResult
        requires vector { is_vector self.old.device vector ≡ true }
        requires dog { clears ≡ true → vector ≡ watchdog self.old.device }
        ensures answer { result ≡ result_of (take assumptions.now self.old (entering self.old vector clears)) }
        ensures state { self.new ≡ state_after self.old (take assumptions.now self.old (entering self.old vector clears)) }
    {
        let target = self.device.get().vector_word(vector);
        let word = self.wrap(target);
        let never = if assumptions.never(word) {
            Some(word)
        } else {
            None
        };
        let pushes = self.way_back(self.pc);
        let count = self.device.back();
        let pushed = Pushed {
            writes: &pushes[..usize::from(count)],
            sp: self.device.minus_sp(self.sp, count),
        };
        let answer = self.push_step(true, never, &pushed, target);
        if let StepResult::Done = answer {
            self.sreg = Sreg::from_bits_retain(self.sreg.bits() % 128);
            if clears {
                self.enables = self.enables.with(self.device.get(), vector, false);
            }
        }
        answer
    }
}
