//! Runs that peripherals choose, for `simulate`.

ghost use Rattle.std.specs.Prelude.{◌≡◌, IfOk};
ghost use Rattle.peripherals.specs.Reading.{setup_in};
ghost use Rattle.replies.specs.Texts.{run_text};
ghost use Rattle.replies.specs.Reply.{SimulateReply, simulation_text};
ghost use Rattle.family_edges.specs.Tasks.{task_of};
ghost use Rattle.stack_core.specs.Clauses.{Returns};

use crate::reply::Reply;
use commands::ChoiceCount;
use family_edges::Task;
use peripherals::{Peripherals, simulation};
use replies::status::Status;
use replies::texts;
use std::alloc::AllocError;

// The report of the run that peripherals choose.
fn simulated(
    task: &Task<'_>,
    steps: ChoiceCount,
    peripherals: &Peripherals,
) -> Result<Vec<u8>, AllocError>
    ensures { IfOk result (λ v. v.items ≡ simulation_text (task_of task.now) peripherals.now steps) }
{
    let report = simulation(
        task.alloc,
        peripherals,
        task.flash,
        task.assumptions,
        steps.get(),
    )?;
    texts::run_text(task.alloc, task.flash.device(), &report)
}

/// The answer to the text of peripherals. Not inlined, as `attain` is not: its machine would stay in the frame of all commands.
#[inline(never)]
pub fn simulate(task: &Task<'_>, steps: ChoiceCount, text: &[u8]) -> Result<Reply, AllocError>
    ensures { Returns result (SimulateReply (task_of task.now) steps (setup_in task.now.flash.now.device text.now)) }
{
    match Peripherals::read(task.alloc, task.flash.device(), text) {
        Ok(peripherals) => Ok(Reply {
            status: Status::Done,
            text: simulated(task, steps, &peripherals)?,
        }),
        Err(fault) => Ok(Reply {
            status: Status::BadPeripherals,
            text: texts::peripherals_refused(task.alloc, &fault)?,
        }),
    }
}
