//! Guided trials.

ghost use Rattle.std.specs.Prelude.{◌≡◌, IfOk};
ghost use Rattle.std.specs.Fn.{CalledAt};
ghost use Rattle.avr_model.specs.Devices.{device_of};
ghost use Rattle.avr_model.specs.State.{IsReset};
ghost use Rattle.stimulus.specs.Steady.{IsSteady};
ghost use Rattle.stimulus.specs.TrialLength.{most_trial_steps};
ghost use Rattle.guided_trials.specs.Attaining.{AttainsIfBounded};
ghost use Rattle.guided_trials.specs.Choosing as choosing;
ghost use Rattle.guided_trials.specs.Trials.{fill_of, initial, depth_by, IsGuidedBy, IsGuidedTried, IsGuidedFound, HasTrialChoices, RunsFromTrial, HasTrialDepth};

use crate::choosing::{after, chosen};
use crate::guide::{Guide, TrialMoment};
use crate::numbers::first;
use avr_machine::{Choice, Firmware, Machine, Menu};
use flash_image::Flash;
use std::alloc::{AllocError, Global};
use stimulus::laws::depth_is_kept;
use stimulus::{Driver, Trace, Until, most_trial_steps};
use vector_table::Assumptions;
use witness_replay::Schedule;

// The byte that fills memory at reset in trial `t`, and is its first input.
fn fill_of(guide: &Guide, t: u32) -> u8
    ensures { result ≡ fill_of guide.now t }
{
    guide.bytes.member(t)
}

// The depth of trial `t` when it is at least the bound, or at a stop, or after this many choices. This function is separate so that its
// loop is optimised alone and stores no choices: most trials fail.
#[inline(never)]
fn depth_of_trial<F: FnMut(&Menu) -> Choice + Drop>(
    choose: F,
    firmware: &Firmware<'_>,
    guide: &Guide,
    t: u32,
    steps: u32,
) -> u16
    requires steady { IsSteady F.FnMut choose }
    requires guided { IsGuidedBy (CalledAt F.FnMut) firmware.now.flash.now guide.now t choose }
    ensures { result ≡ depth_by steps firmware.now.flash.now firmware.now.assumptions.now guide.now t }
{
    depth_is_kept();
    let fill = fill_of(guide, t);
    let mut machine = Machine::start(firmware.flash.device(), fill);
    let mut driver = Driver::new(choose);
    let until = Until {
        target: guide.bound,
        steps,
    };
    driver.run(&mut machine, firmware, until);
    machine.depth()
}

// Trial `t` with its choices.
fn attempt<F: FnMut(&Menu) -> Choice + Drop>(
    alloc: Global,
    choose: F,
    firmware: &Firmware<'_>,
    guide: &Guide,
    t: u32,
) -> Result<Trace, AllocError>
    requires steady { IsSteady F.FnMut choose }
    requires guided { IsGuidedBy (CalledAt F.FnMut) firmware.now.flash.now guide.now t choose }
    ensures reset { IsReset (device_of firmware.now.flash.now) (initial firmware.now.flash.now guide.now t) }
    ensures choices { IfOk result (HasTrialChoices firmware.now guide.now t) }
    ensures run { IfOk result (RunsFromTrial firmware.now guide.now t) }
    ensures depth { IfOk result (HasTrialDepth firmware.now guide.now t) }
{
    depth_is_kept();
    let fill = fill_of(guide, t);
    let mut machine = Machine::start(firmware.flash.device(), fill);
    let mut driver = Driver::new(choose);
    let steps = most_trial_steps();
    let until = Until {
        target: guide.bound,
        steps,
    };
    driver.drive(alloc, &mut machine, firmware, until)
}

// The schedule of trial `t`. None exactly if its depth is below the bound.
fn try_number(
    alloc: Global,
    flash: &Flash,
    assumptions: &Assumptions,
    guide: &Guide,
    t: u32,
) -> Result<Option<Schedule>, AllocError>
    ensures tried { IfOk result (IsGuidedTried flash.now assumptions.now guide.now t) }
    ensures attained { IfOk result (AttainsIfBounded flash.now assumptions.now guide.now.bound) }
{
    depth_is_kept();
    let steps = most_trial_steps();
    let fill = fill_of(guide, t);
    let mut moment = TrialMoment {
        number: first(t),
        byte: fill,
    };
    let choose = move |menu: &Menu| -> Choice
        ensures choice { result ≡ choosing.picked flash.entry.now guide.entry.now t moment.entry menu.now }
        ensures left { moment.exit ≡ choosing.left_by flash.entry.now guide.entry.now t moment.entry menu.now }
    {
        moment = after(flash, guide, t, moment, menu.pc);
        chosen(flash, guide, t, moment, menu)
    };
    let firmware = Firmware { flash, assumptions };
    let depth = depth_of_trial(choose, &firmware, guide, t, steps);
    if depth < guide.bound {
        return Ok(None);
    }
    let trace = attempt(alloc, choose, &firmware, guide, t)?;
    let schedule = Schedule::from_trace(alloc, flash.device(), fill, trace.choices.as_slice())?;
    Ok(Some(schedule))
}

/// The schedule of the first of this many trials whose depth is at least the bound. None exactly if no trial's depth is. If the bound
/// bounds all runs, the replay of the schedule ends without a stop, at the depth of the bound.
pub fn first_trial(
    alloc: Global,
    flash: &Flash,
    assumptions: &Assumptions,
    guide: &Guide,
    trials: u32,
) -> Result<Option<Schedule>, AllocError>
    ensures first { IfOk result (IsGuidedFound flash.now assumptions.now guide.now trials) }
    ensures attained { IfOk result (AttainsIfBounded flash.now assumptions.now guide.now.bound) }
{
    for t in 0..trials {
        if let Some(schedule) = try_number(alloc, flash, assumptions, guide, t)? {
            return Ok(Some(schedule));
        }
    }
    Ok(None)
}
