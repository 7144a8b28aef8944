//! Trials: runs from reset that take the interrupts of a chain of entries when they are due.

ghost use Rattle.std.specs.Prelude.{◌≡◌, ◌≢◌, IfOk, IfSome, IfNone};
ghost use Rattle.witness_search.specs.Waypoints.{taken, left_after};
ghost use Rattle.certificate.specs.Valid.{Attains};
ghost use Rattle.witness_search.specs.Attempts.{IsAttempted};
ghost use Rattle.witness_search.specs.Trials.{IsTried, IsFound};
ghost use Rattle.family_edges.specs.Tasks.{task_of};

use crate::mark::Mark;
use crate::waypoint::{Waypoint, is_due};
use avr_machine::{Choice, Machine, Menu, StepResult};
use avr_model::listed::Listed;
use family_edges::Task;
use std::alloc::AllocError;
use stimulus::laws::depth_is_kept;
use stimulus::most_trial_steps;
use witness_replay::Schedule;

// The next choice of a trial, and the waypoints left after it: the next waypoint's interrupt if it is due, else an instruction with the
// fill byte as input.
fn next<'a>(may: bool, rest: &'a [Waypoint], menu: &Menu, fill: u8) -> (Choice, &'a [Waypoint])
    ensures choice { result.0 ≡ taken may fill rest.now menu.now }
    ensures left { result.1.now ≡ left_after may rest.now menu.now }
{
    if let Some((point, after)) = rest.split_first() {
        if is_due(may, point, menu) {
            return (Choice::Take(point.vector, point.clears), after);
        }
    }
    (Choice::Go(fill, fill), rest)
}

// The choices of a trial that ended at this depth, if it is the bound.
fn found(choices: Vec<Choice>, machine: &Machine, bound: u16) -> Option<Listed<Choice>>
    ensures some { IfSome result (λ found. (found ≡ choices.items) × (machine.now.depth ≡ bound)) }
    ensures none { IfNone result (machine.now.depth ≢ bound) }
{
    if machine.depth() == bound {
        Some(Listed::new(choices))
    } else {
        None
    }
}

// The choices of the trial with this fill byte, if its depth is the bound. It takes the next waypoint's interrupt when it is due, and
// else chooses `Go(fill, fill)`, until the depth is at least the bound, or a stop, or this many steps. A trial that repeats a state with
// as many waypoints left is ended.
fn attempt(
    task: &Task<'_>,
    points: &[Waypoint],
    bound: u16,
    fill: u8,
    steps: u32,
    mark: &mut Mark,
) -> Result<Option<Listed<Choice>>, AllocError>
    ensures { IfOk result (IsAttempted steps (task_of task.now) points.now bound fill) }
{
    depth_is_kept();
    let device = task.flash.device();
    let may = task.assumptions.reads_masks(device);
    let mut machine = Machine::start(device, fill);
    let mut rest = points;
    let mut choices = Vec::new(task.alloc);
    mark.set(0, &machine, rest);
    for at in 0..steps {
        if bound <= machine.depth() {
            return Ok(found(choices, &machine, bound));
        }
        let (choice, left) = next(may, rest, &machine.menu(), fill);
        rest = left;
        choices.push(choice)?;
        match machine.step(task.flash, task.assumptions, choice) {
            StepResult::Done => {}
            _ => return Ok(found(choices, &machine, bound)),
        }
        if mark.is_met(&machine, rest) {
            return Ok(None);
        }
        if mark.is_old(at) {
            mark.set(at, &machine, rest);
        }
    }
    Ok(found(choices, &machine, bound))
}

// The schedule of the trial with this fill byte. None exactly if its depth is not the bound.
fn try_fill(
    task: &Task<'_>,
    points: &[Waypoint],
    bound: u16,
    fill: u8,
    mark: &mut Mark,
) -> Result<Option<Schedule>, AllocError>
    ensures tried { IfOk result (IsTried (task_of task.now) points.now bound fill) }
    ensures attained { IfOk result (λ found. IfSome found (Attains (task_of task.now) bound)) }
{
    depth_is_kept();
    let Some(choices) = attempt(task, points, bound, fill, most_trial_steps(), mark)? else {
        return Ok(None);
    };
    let device = task.flash.device();
    let schedule = Schedule::from_trace(task.alloc, device, fill, choices.as_slice())?;
    Ok(Some(schedule))
}

// The fill bytes of the trials in order: the initial memory and all input of a trial.
const FILLS: [u8; 8] = [0x00, 0xFF, 0x55, 0xAA, 0x01, 0x80, 0x7F, 0xFE];

/// The schedule of the first trial whose depth is the bound. None exactly if no trial's depth is. The replay of the schedule ends without
/// a stop, at the depth of the bound. Not inlined: its machines, 33 KiB of stack each, would stay in its caller's frame.
#[inline(never)]
pub fn first_trial(
    task: &Task<'_>,
    points: &[Waypoint],
    bound: u16,
) -> Result<Option<Schedule>, AllocError>
    ensures first { IfOk result (IsFound (task_of task.now) points.now bound) }
    ensures attained { IfOk result (λ found. IfSome found (Attains (task_of task.now) bound)) }
{
    // One for all trials, since it is large.
    let mut mark = Mark::new(task.flash.device());
    for t in 0..8 {
        let fill = FILLS[t];
        if let Some(schedule) = try_fill(task, points, bound, fill, &mut mark)? {
            return Ok(Some(schedule));
        }
    }
    Ok(None)
}
