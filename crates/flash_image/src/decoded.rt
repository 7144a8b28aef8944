//! The decoded form of flash; each word is decoded once.

ghost use Rattle.std.specs.Prelude.{◌≡◌};
ghost use Rattle.avr_model.specs.Assumptions.{is_fixed_site};
ghost use Rattle.avr_model.specs.Sites.{instruction_at, is_fixed, is_scratch, table_site};

use crate::image::Flash;
use avr_decode::{Reading, adds_low};
use avr_model::instruction::Instr;
use vector_table::Assumptions;

impl Flash {
    /// Decodes all words, so that no later use decodes one again. Without memory for that (12 bytes a word), each word is decoded when it
    /// is used.
    pub fn decode(&mut self)
        ensures { self.new ≡ self.old }
    {
        if let Ok(readings) = Reading::all(self.alloc, self.device, &self.words) {
            self.readings = readings;
        }
    }

    /// The instruction at word `a`, which counts modulo the number of words; none if the word is undefined.
    #[inline(always)]
    pub fn instruction(&self, a: u32) -> Option<Instr>
        ensures { result ≡ instruction_at self.now a }
    {
        match self.readings.get(a as usize) {
            Some(reading) => reading.instruction,
            None => avr_decode::instruction(self.device, &self.words, a as usize),
        }
    }

    /// Whether word `a` is a store whose pointer is certainly loaded just before.
    pub fn is_fixed(&self, a: u32) -> bool
        ensures { result ≡ is_fixed self.now a }
    {
        match self.readings.get(a as usize) {
            Some(reading) => reading.is_fixed,
            None => avr_decode::is_fixed(self.device, &self.words, a),
        }
    }

    /// Whether the site `pc` counts as fixed: it has a `prove` entry, or the words say so and it has no `free` entry.
    #[tactic(auto, unfolding(avr_model::specs::Assumptions::is_fixed_site))]
    pub fn is_fixed_site(&self, assumptions: &Assumptions, pc: u32) -> bool
        ensures { result ≡ is_fixed_site self.now assumptions.now pc }
    {
        assumptions.proved(pc) || !assumptions.freed(pc) && self.is_fixed(pc)
    }

    /// Whether a push at word `a` makes room for a compiler's small frame.
    #[inline(always)]
    pub fn is_scratch(&self, a: u32) -> bool
        ensures { result ≡ is_scratch self.now a }
    {
        match self.readings.get(a as usize) {
            Some(reading) => reading.is_scratch,
            None => avr_decode::is_scratch(self.device, &self.words, a),
        }
    }

    /// The word of the `ijmp` of the table site that begins at word `a`; none if no site does.
    #[tactic(auto, unfolding(avr_model::specs::Sites::table_site))]
    pub fn table_site(&self, a: u32) -> Option<u32>
        ensures { result ≡ table_site self.now a }
    {
        match &self.instruction(a) {
            Some(instr) if adds_low(instr) => avr_decode::table_site(self.device, &self.words, a),
            _ => None,
        }
    }
}
