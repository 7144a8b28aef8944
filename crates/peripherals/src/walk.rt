//! Runs that hooks choose.

ghost use Rattle.std.specs.Prelude.{◌≡◌, ◌≢◌, ◌≤◌, ◌<◌, IfOk, OnErr};
ghost use Rattle.avr_model.specs.declared.choice.StepResult.TheVariants as answer;
ghost use Rattle.avr_model.specs.Step.{step, result_of};
ghost use Rattle.avr_model.specs.Run.{HasBytes};
ghost use Rattle.stimulus.specs.Driving.{stop_at};
ghost use Rattle.peripherals.specs.Spelling.{most_steps};
ghost use Rattle.peripherals.specs.Hooks.{IsHook};
ghost use Rattle.peripherals.specs.Traces.{IsTrace, Halts};
ghost use Rattle.peripherals.specs.Midway.{setting_of, IsProgressKnown, IsChosen};

use crate::hook::{Hook, Moment};
use crate::peripherals::Peripherals;
use crate::progress::Progress;
use crate::trace::{Choices, PeripheralTrace};
use avr_machine::{Choice, Machine, Menu, Stop};
use avr_model::choice::StepResult;
use flash_image::Flash;
use std::alloc::{AllocError, Global};
use vector_table::Assumptions;

/// What determines the choices of a run: peripherals with two hooks of theirs, a firmware and its assumptions.
#[derive(Drop)]
pub struct Wiring<'a, F, G> {
    /// The peripherals.
    pub peripherals: &'a Peripherals,
    /// The hook that is asked first.
    pub timers: &'a Hook<'a, F>,
    /// The hook that is asked if the first one chooses no source.
    pub receivers: &'a Hook<'a, G>,
    /// The flash.
    pub flash: &'a Flash,
    /// The assumptions.
    pub assumptions: &'a Assumptions,
}

// How the answer to a step ends a run, if it does.
pub(crate) fn stop_at(answer: StepResult) -> Option<Stop>
    ensures { result ≡ stop_at answer }
{
    match answer {
        StepResult::Done | StepResult::Illegal => None,
        StepResult::Undefined(pc) => Some(Stop::Undefined(pc)),
        StepResult::Overflow(pc) => Some(Stop::Overflow(pc)),
        StepResult::Flagged(flag) => Some(Stop::Flag(flag)),
    }
}

// The hooks' choice at this moment.
fn choose<F: Fn(&Moment<'_>, &Menu) -> Option<usize>, G: Fn(&Moment<'_>, &Menu) -> Option<usize>>(
    wiring: &Wiring<'_, F, G>,
    machine: &Machine,
    progress: &mut Progress,
) -> Choice
    requires first { IsHook F.Fn wiring.now.timers.now.0 wiring.now.timers.now.1 }
    requires second { IsHook G.Fn wiring.now.receivers.now.0 wiring.now.receivers.now.1 }
    requires first_peripherals { wiring.now.timers.now.0 ≡ wiring.now.peripherals.now }
    requires second_peripherals { wiring.now.receivers.now.0 ≡ wiring.now.peripherals.now }
    requires known { IsProgressKnown wiring.now.peripherals.now progress.old }
    requires room { progress.old.step < most_steps }
    ensures known { IsProgressKnown wiring.now.peripherals.now progress.new }
    ensures bytes { HasBytes result }
    ensures chosen { IsChosen (setting_of F.Fn G.Fn wiring.now) progress.old machine.now.state result progress.new }
    ensures legal { (image : _) (A : _) → result_of (step image A machine.now.state result) ≢ answer.Illegal }
{
    let answer = progress.answer(wiring.timers, wiring.receivers, &machine.menu());
    let choice = progress.choice(wiring.peripherals, answer);
    progress.pass(wiring.peripherals, answer);
    choice
}

/// Steps the machine by the hooks' answers. At each moment it enters the interrupt of the first hook's source, otherwise of the second
/// one's; otherwise it executes an instruction with the peripherals' byte as input. The run ends at its first stop, or after exactly
/// `steps` choices, at most 16,777,216. If memory runs out, the machine is where some first choices left it.
pub fn simulate<
    F: Fn(&Moment<'_>, &Menu) -> Option<usize>,
    G: Fn(&Moment<'_>, &Menu) -> Option<usize>,
>(
    alloc: Global,
    wiring: &Wiring<'_, F, G>,
    machine: &mut Machine,
    steps: u32,
) -> Result<PeripheralTrace, AllocError>
    requires first { IsHook F.Fn wiring.now.timers.now.0 wiring.now.timers.now.1 }
    requires second { IsHook G.Fn wiring.now.receivers.now.0 wiring.now.receivers.now.1 }
    requires first_peripherals { wiring.now.timers.now.0 ≡ wiring.now.peripherals.now }
    requires second_peripherals { wiring.now.receivers.now.0 ≡ wiring.now.peripherals.now }
    requires few { steps ≤ most_steps }
    ensures ok { IfOk result (λ t. IsTrace (setting_of F.Fn G.Fn wiring.now) steps machine.old t machine.new) }
    ensures err { OnErr result (Halts (setting_of F.Fn G.Fn wiring.now) steps machine.old machine.new) }
{
    let mut progress = Progress::begin(alloc, wiring.peripherals)?;
    let mut choices = Choices::empty(alloc);
    for step in 0..steps {
        let choice = choose(wiring, machine, &mut progress);
        choices.push(choice)?;
        let answer = machine.step(wiring.flash, wiring.assumptions, choice);
        if let Some(stop) = stop_at(answer) {
            return Ok(PeripheralTrace {
                choices,
                depth: machine.depth(),
                stop,
            });
        }
    }
    Ok(PeripheralTrace {
        choices,
        depth: machine.depth(),
        stop: Stop::End,
    })
}
