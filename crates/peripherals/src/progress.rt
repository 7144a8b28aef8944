//! The progress of a run.

ghost use Rattle.std.specs.Prelude.{◌≡◌, ◌≤◌, ◌<◌, length, Some, IfOk};
ghost use Rattle.std.specs.List.{All};
ghost use Rattle.peripherals.specs.Spelling.{most_steps};
ghost use Rattle.peripherals.specs.Due.{begun, choice_on, next_on};
ghost use Rattle.peripherals.specs.Hooks.{IsHook, ByHooks};

use crate::hook::{Hook, Moment};
use crate::peripherals::Peripherals;
use avr_machine::{Choice, Menu};
use std::alloc::{AllocError, Global};
use std::marker::Model;

// The steps so far, how often each source was taken, and the current input byte.
#[derive(Drop)]
pub(crate) struct Progress {
    step: u32,
    taken: Vec<u32>,
    input: u8,
}

impl Model for Progress {
    ghost use Rattle.peripherals.specs.Due.{Progress};

    ghost Value = { Progress };

    ghost view = { λ p. record { step = p.step; taken = p.taken.items; input = p.input } };
}

impl Progress {
    // Before any step.
    pub(crate) fn begin(alloc: Global, peripherals: &Peripherals) -> Result<Progress, AllocError>
        ensures { IfOk result (λ p. p ≡ begun peripherals.now) }
    {
        Ok(Progress {
            step: 0,
            taken: vec![in alloc; 0u32; peripherals.count()]?,
            input: 0,
        })
    }

    // The moment, as hooks see it.
    pub(crate) fn moment(&self) -> Moment<'_>
        ensures step { result.step ≡ self.now.step }
        ensures taken { result.taken.now ≡ self.now.taken }
    {
        Moment {
            step: self.step,
            taken: &self.taken,
        }
    }

    // The first hook's answer, or the second one's if that is none.
    pub(crate) fn answer<
        F: Fn(&Moment<'_>, &Menu) -> Option<usize>,
        G: Fn(&Moment<'_>, &Menu) -> Option<usize>,
    >(&self, timers: &Hook<'_, F>, receivers: &Hook<'_, G>, menu: &Menu) -> Option<usize>
        requires first { IsHook F.Fn timers.now.0 timers.now.1 }
        requires second { IsHook G.Fn receivers.now.0 receivers.now.1 }
        requires first_counts { length self.now.taken ≡ length timers.now.0.sources }
        requires second_counts { length self.now.taken ≡ length receivers.now.0.sources }
        ensures { ByHooks F.Fn G.Fn timers.now receivers.now self.now.step self.now.taken menu.now result }
    {
        let moment = self.moment();
        match timers.ask(&moment, menu) {
            Some(n) => Some(n),
            None => receivers.ask(&moment, menu),
        }
    }

    // The choice for an answer.
    pub(crate) fn choice(&self, peripherals: &Peripherals, answer: Option<usize>) -> Choice
        ensures { result ≡ choice_on peripherals.now self.now answer }
    {
        let source = match answer {
            Some(n) => peripherals.source(n),
            None => None,
        };
        match source {
            Some(source) => Choice::Take(source.vector, false),
            None => Choice::Go(self.input, self.input),
        }
    }

    // The progress one step later, after this answer.
    pub(crate) fn pass(&mut self, peripherals: &Peripherals, answer: Option<usize>)
        requires room { self.old.step < most_steps }
        requires few { All (λ k. k ≤ self.old.step) self.old.taken }
        requires counts { length self.old.taken ≡ length peripherals.now.sources }
        ensures next { self.new ≡ next_on peripherals.now self.old answer }
        ensures few { All (λ k. k ≤ self.new.step) self.new.taken }
    {
        self.step += 1;
        let Some(n) = answer else {
            return;
        };
        if let Some(source) = peripherals.source(n) {
            let taken = self.taken[n];
            self.input = source.input_after(taken, self.input);
            self.taken[n] = taken + 1;
        }
    }
}
