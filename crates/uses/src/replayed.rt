//! Shows `witness_replay`.

ghost use Rattle.std.specs.Prelude.{◌≡◌, ◌≤◌, ℕ, IfSome};
ghost use Rattle.avr_model.specs.Run.{Bounded};

use avr_machine::{Assumptions, Flash};
use witness_replay::laws::replays_are_runs;
use witness_replay::{Schedule, replay};

/// How deep the stack is in the replay of a schedule: no bound of all runs is smaller. `None` at an illegal choice.
pub fn depth_seen(flash: &Flash, assumptions: &Assumptions, schedule: &Schedule) -> Option<u16>
    ensures { IfSome result (λ depth. (bound : ℕ) → Bounded flash.now assumptions.now bound → depth ≤ bound) }
{
    replays_are_runs();
    let _fill = schedule.fill();
    let _runs = schedule.runs();
    match replay(flash, assumptions, schedule) {
        Ok(report) => Some(report.depth),
        Err(_) => None,
    }
}
