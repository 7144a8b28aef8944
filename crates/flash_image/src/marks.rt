//! The marks of a program: widening thresholds for computed intervals of register pairs.

ghost use Rattle.std.specs.Prelude.{◌≡◌, ◌≤◌, ◌<◌, IfSome, length};
ghost use Rattle.avr_model.specs.Devices.{IsFlash};
ghost use Rattle.avr_model.specs.Image.{WORDS, AreErased};
ghost use Rattle.avr_model.specs.Marks.{immediate_at, near_marks, compared_marks, marks_at, marks};
ghost use Rattle.avr_model.specs.Sites.{instruction_at};
ghost use Rattle.pair_domain.specs.Marks.{outward};
ghost use Rattle.flash_image.specs.Marked.{marked, AreLoads};

use crate::image::Flash;
use crate::mark_table::{
    LOADS, NUMBERS, listed, mark_added, mark_loaded, mark_side, mark_usual, note_load, widened,
    widened_by,
};
use avr_decode::{immediate, other_side, written};
use avr_model::instruction::ImmediateInstr;
use pair_domain::Interval;
use std::alloc::AllocError;

impl Flash {
    /// Computes the marks of the program and keeps them, so that no later use computes them again. If memory runs out, nothing changes.
    /// Not inlined: its table, 64 KiB of stack, would stay in its caller's frame.
    #[inline(never)]
    pub fn keep_marks(&mut self) -> Result<(), AllocError>
        ensures { self.new ≡ self.old }
    {
        let mut table = [false; NUMBERS];
        self.mark_all(&mut table);
        self.mark_list = listed(self.alloc, &table)?;
        Ok(())
    }

    /// The interval, widened outwards to the nearest marks of the program: the greatest up to its low end, and the least from
    /// its high end on.
    pub fn outward(&self, interval: Interval) -> Interval
        ensures { result ≡ outward (marks self.now) interval }
    {
        if self.mark_list.is_empty() {
            self.widened_anew(interval)
        } else {
            widened_by(&self.mark_list, interval)
        }
    }

    // The same, with the marks computed for it.
    #[inline(never)]
    fn widened_anew(&self, interval: Interval) -> Interval
        ensures { result ≡ outward (marks self.now) interval }
    {
        let mut table = [false; NUMBERS];
        self.mark_all(&mut table);
        widened(&table, interval)
    }

    // Marks all marks of the program.
    fn mark_all(&self, table: &mut [bool; NUMBERS])
        ensures { table.new ≡ marked table.old (marks self.now) }
    {
        mark_usual(table, self.device);
        let loads = self.loads();
        for a in 0..self.written() {
            self.mark_at(table, &loads, a);
        }
    }

    // The number of words up to the last that isn't erased: words behind have no marks.
    fn written(&self) -> u32
        ensures within { result ≤ length self.now.words }
        ensures erased { AreErased self.now.words result (length self.now.words) }
        ensures flash { IsFlash self.now }
    {
        written(&self.words) as u32
    }

    // The bytes that the program loads into each register.
    fn loads(&self) -> [bool; LOADS]
        ensures { AreLoads self.now result }
    {
        let mut loads = [false; LOADS];
        for a in 0..self.written() {
            if let Some(load) = self.immediate(a) {
                note_load(&mut loads, load);
            }
        }
        loads
    }

    // Marks those of the instruction at a word address with the ones after it.
    #[tactic(auto, using(crate::proofs::Marked::marked_append))]
    fn mark_at(&self, table: &mut [bool; NUMBERS], loads: &[bool; LOADS], a: u32)
        requires word { a < WORDS }
        requires loads { AreLoads self.now loads.now }
        ensures { table.new ≡ marked table.old (marks_at self.now a) }
    {
        if let Some(first) = self.immediate(a) {
            self.mark_near(table, first, a + 1);
            self.mark_near(table, first, a + 2);
            self.mark_near(table, first, a + 3);
            self.mark_compared(table, loads, first, a + 1);
        }
    }

    // The instruction at a word address, if it has a register and a byte.
    fn immediate(&self, a: u32) -> Option<ImmediateInstr>
        ensures value { result ≡ immediate_at self.now a }
        ensures register { IfSome result (λ found. found.register < 32) }
    {
        match &self.instruction(a) {
            Some(instr) => immediate(instr),
            None => None,
        }
    }

    // Marks those of an instruction with the one at word `a`, which is one to three words after it.
    #[tactic(auto, using(crate::proofs::Marked::marked_append))]
    fn mark_near(&self, table: &mut [bool; NUMBERS], first: ImmediateInstr, a: u32)
        ensures { table.new ≡ marked table.old (near_marks first (immediate_at self.now a)) }
    {
        if let Some(second) = self.immediate(a) {
            mark_loaded(table, first, second);
            mark_added(table, first, second);
        }
    }

    // Marks those of an instruction with the one in the next word, which is word `a`.
    fn mark_compared(
        &self,
        table: &mut [bool; NUMBERS],
        loads: &[bool; LOADS],
        first: ImmediateInstr,
        a: u32,
    )
        requires { AreLoads self.now loads.now }
        ensures { table.new ≡ marked table.old (compared_marks self.now first (instruction_at self.now a)) }
    {
        if let Some(next) = &self.instruction(a) {
            if let Some(side) = other_side(first, next) {
                mark_side(table, loads, side, first.byte);
            }
        }
    }
}
