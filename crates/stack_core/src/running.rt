//! Replays of schedules, for `run`.

ghost use Rattle.std.specs.Prelude.{◌≡◌, IfOk};
ghost use Rattle.replies.specs.Texts as told;
ghost use Rattle.replies.specs.Reply.{ReplayReply, ScheduleTextReply};
ghost use Rattle.family_edges.specs.Tasks.{task_of};
ghost use Rattle.stack_core.specs.Clauses.{Returns};

use crate::reply::Reply;
use family_edges::Task;
use replies::status::Status;
use replies::texts;
use std::alloc::{AllocError, Global};
use text_base::LineReader;
use witness_replay::{IllegalChoice, Schedule, ScheduleFault, replay};

// The answer to a schedule that was read.
fn replayed(task: &Task<'_>, schedule: &Schedule) -> Result<Reply, AllocError>
    ensures { Returns result (ReplayReply (task_of task.now) schedule.now) }
{
    match replay(task.flash, task.assumptions, schedule) {
        Ok(report) => Ok(Reply {
            status: Status::Done,
            text: texts::run_text(task.alloc, task.flash.device(), &report)?,
        }),
        Err(IllegalChoice(step)) => Ok(Reply {
            status: Status::BadSchedule,
            text: texts::schedule_illegal(task.alloc, step)?,
        }),
    }
}

fn schedule_malformed(alloc: Global, at: usize) -> Result<Reply, AllocError>
    ensures { IfOk result (λ r. (r.status ≡ Status.BadSchedule) × (r.text.items ≡ told.schedule_malformed at)) }
{
    Ok(Reply {
        status: Status::BadSchedule,
        text: texts::schedule_malformed(alloc, at)?,
    })
}

/// The answer to the text of a schedule.
pub fn run(task: &Task<'_>, text: &[u8]) -> Result<Reply, AllocError>
    ensures { Returns result (ScheduleTextReply (task_of task.now) text.now) }
{
    let mut reader = LineReader::new(text);
    match Schedule::read(task.alloc, task.flash.device(), &mut reader) {
        Ok(schedule) => {
            if reader.peek().is_some() {
                schedule_malformed(task.alloc, reader.offset())
            } else {
                replayed(task, &schedule)
            }
        }
        Err(ScheduleFault::Malformed(at)) => schedule_malformed(task.alloc, at),
        Err(ScheduleFault::Memory) => Err(AllocError),
    }
}
