//! Refinement of the state of the plain rules.

ghost use Rattle.std.specs.Prelude.{◌≡◌};
ghost use Rattle.avr_model.specs.Marks.{marks};
ghost use Rattle.abs_state.specs.Cuts.{cut_state};
ghost use Rattle.abs_state.specs.PairBytes.{left_in};
ghost use Rattle.pair_rules.specs.Refined as refined;

use crate::tags::tag;
use crate::values::retell;
use abs_state::AbsState;
use avr_model::instruction::{Instr, Pair};
use flash_image::Flash;
use pair_domain::{Interval, PairFacts};
use pair_rows::{hull_by, told_by};
use pair_rules::Told;

// Cuts the interval of a pair, and nothing else. Returns whether anything is left.
fn meet_pair(state: &mut AbsState, n: Pair, interval: Interval) -> bool
    ensures { left_in result state.new ≡ cut_state (λ p. refined.meet_pair p interval) state.old n }
{
    state.facts.kept();
    let Some(known) = state.facts.get() else {
        return true;
    };
    let at = usize::from(n.get());
    let Some(met) = known.intervals[at].meet(interval) else {
        return false;
    };
    let mut intervals = known.intervals;
    intervals[at] = met;
    state.facts.set(PairFacts { intervals, ..known });
    true
}

// Cuts the state to an interval of one pair. Returns whether anything is left.
fn cut_told(flash: &Flash, told: &Told, state: &mut AbsState) -> bool
    ensures { left_in result state.new ≡ refined.cut_told (marks flash.now) told.now state.old }
{
    match told {
        Told::Nothing => true,
        Told::Kept(n, interval) => meet_pair(state, *n, *interval),
        Told::Computed(n, interval) => {
            state.narrow_pair(usize::from(n.get()), flash.outward(*interval))
        }
    }
}

/// Refines the state after an instruction, from the state `before` it; for a store, before its byte is stored. Returns whether anything is
/// left. Does nothing if pairs are not followed.
pub fn refine(flash: &Flash, instr: &Instr, before: &AbsState, after: &mut AbsState) -> bool
    ensures { left_in result after.new ≡ refined.refined (marks flash.now) flash.now instr.now before.now after.old }
{
    let Some(facts) = before.facts.get() else {
        return true;
    };
    if !retell(flash, before, &facts, instr, after) {
        return false;
    }
    hull_by(&mut after.facts, &after.registers, instr);
    let told = told_by(&before.registers, &facts, instr);
    if !cut_told(flash, &told, after) {
        return false;
    }
    tag(&before.registers, &facts, instr, &mut after.facts);
    true
}
