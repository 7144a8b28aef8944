//! Simulation by peripherals alone.

ghost use Rattle.std.specs.Prelude.{◌≡◌, ◌≤◌, ◌<◌, ℕ, IfOk};
ghost use Rattle.avr_model.specs.Run.{Bounded, HasBytes};
ghost use Rattle.peripherals.specs.Spelling.{most_steps};
ghost use Rattle.peripherals.specs.Simulating.{report_of, simulation_of};
ghost use Rattle.peripherals.specs.Midway.{IsProgressKnown, IsQuietAsNoted, IsChosenAlone};

use crate::peripherals::Peripherals;
use crate::picking::{Quiet, pick};
use crate::progress::Progress;
use crate::walk::stop_at;
use avr_machine::{Choice, Machine, Stop};
use avr_model::laws::devices_are_alike;
use flash_image::Flash;
use std::alloc::{AllocError, Global};
use stimulus::laws::depth_is_kept;
use vector_table::Assumptions;
use witness_replay::ReplayReport;

// The choice by the peripherals alone.
fn choose(
    peripherals: &Peripherals,
    machine: &Machine,
    progress: &mut Progress,
    quiet: &mut Quiet,
) -> Choice
    requires known { IsProgressKnown peripherals.now progress.old }
    requires room { progress.old.step < most_steps }
    requires quiet { IsQuietAsNoted peripherals.now machine.now.state.device quiet.old progress.old.taken }
    ensures known { IsProgressKnown peripherals.now progress.new }
    ensures quiet { IsQuietAsNoted peripherals.now machine.now.state.device quiet.new progress.new.taken }
    ensures bytes { HasBytes result }
    ensures chosen { IsChosenAlone peripherals.now progress.old machine.now.state result progress.new }
{
    let answer = pick(peripherals, quiet, &progress.moment(), &machine.menu());
    let choice = progress.choice(peripherals, answer);
    progress.pass(peripherals, answer);
    choice
}

/// Runs the machine of the flash's device from reset, with the peripherals' fill byte in registers and SRAM. At each step it enters the
/// interrupt of the first pending timer that may be taken, otherwise of the first such receiver, otherwise it executes an instruction. The
/// run ends at its first stop, or after exactly `steps` choices, at most 16,777,216. It allocates nothing for its choices. A bound of all
/// runs bounds it.
pub fn simulation(
    alloc: Global,
    peripherals: &Peripherals,
    flash: &Flash,
    assumptions: &Assumptions,
    steps: u32,
) -> Result<ReplayReport, AllocError>
    requires few { steps ≤ most_steps }
    ensures told { IfOk result (λ r. report_of r ≡ simulation_of flash.now assumptions.now peripherals.now steps) }
    ensures bounded { (bound : ℕ) → Bounded flash.now assumptions.now bound → IfOk result (λ r. r.depth ≤ bound) }
{
    depth_is_kept();
    devices_are_alike();
    let mut machine = Machine::start(flash.device(), peripherals.fill());
    let mut progress = Progress::begin(alloc, peripherals)?;
    let mut quiet = Quiet::unknown();
    for step in 0..steps {
        let choice = choose(peripherals, &machine, &mut progress, &mut quiet);
        let answer = machine.step(flash, assumptions, choice);
        if let Some(stop) = stop_at(answer) {
            return Ok(ReplayReport {
                steps: step,
                depth: machine.depth(),
                stop,
            });
        }
    }
    Ok(ReplayReport {
        steps,
        depth: machine.depth(),
        stop: Stop::End,
    })
}
