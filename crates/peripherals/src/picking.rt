//! The source whose interrupt is entered next.

ghost use Rattle.std.specs.Prelude.{◌≡◌, ◌<◌, ◌==◌, ◌&&◌, ◌||◌, not, nat_lt, false, length, IfSome};
ghost use Rattle.avr_model.specs.Vectors.{is_enabled};
ghost use Rattle.peripherals.specs.Hooks.{stands_in};
ghost use Rattle.peripherals.specs.Due.{is_ready, first_ready};
ghost use Rattle.peripherals.specs.Midway.{IsPicked, IsQuiet, IsQuietSource, IsQuietAsNoted};

use crate::hook::Moment;
use crate::peripherals::Peripherals;
use avr_machine::{Choice, Menu};
use avr_model::device::Device;
use vector_table::Masks;

// Before step `until` no source is due whose vector is enabled by `masks`. It saves a look at each source in each step.
#[derive(Clone, Copy)]
pub(crate) struct Quiet {
    masks: Masks,
    until: u64,
}

impl Quiet {
    // Before any source was looked at.
    pub(crate) fn unknown() -> Quiet
        ensures { result.until ≡ 0 }
    {
        Quiet {
            masks: Masks::none(),
            until: 0,
        }
    }

    // Whether the menu has no interrupt of a pending source by what is known: none may be taken, or the step is before `until` and the
    // enable bits are the same.
    fn holds(&self, step: u32, menu: &Menu) -> bool
        ensures { result ≡ (not menu.now.takes || (nat_lt step self.now.until && (menu.now.masks == self.now.masks))) }
    {
        !menu.takes || (u64::from(step) < self.until && menu.masks == self.masks)
    }
}

// Whether source `n` is of this kind (timer or receiver), is pending, and has its interrupt in the menu.
fn is_ready(
    peripherals: &Peripherals,
    timers: bool,
    moment: &Moment<'_>,
    menu: &Menu,
    n: usize,
) -> bool
    requires { n < length moment.now.taken.now }
    ensures { result ≡ is_ready peripherals.now (stands_in menu.now) timers moment.now.taken.now moment.now.step n }
{
    let taken = moment.taken[n];
    match peripherals.source(n) {
        Some(source) => source.is_of(timers)
            && source.is_due(taken, moment.step)
            && menu.has(Choice::Take(source.vector, false)),
        None => false,
    }
}

// The first source of this kind in the text's order that is pending and has its interrupt in the menu.
#[tactic(auto, using(crate::proofs::Ready::first_here, crate::proofs::Ready::first_later, crate::proofs::Ready::first_none))]
fn first_due(
    peripherals: &Peripherals,
    timers: bool,
    moment: &Moment<'_>,
    menu: &Menu,
) -> Option<usize>
    requires { length moment.now.taken.now ≡ length peripherals.now.sources }
    ensures { result ≡ first_ready peripherals.now (stands_in menu.now) timers moment.now.taken.now moment.now.step }
{
    for n in 0..peripherals.count() {
        if is_ready(peripherals, timers, moment, menu, n) {
            return Some(n);
        }
    }
    None
}

// A step before which source `n` is not due, or its vector is not enabled by these bits.
fn quiet_of(peripherals: &Peripherals, device: Device, masks: Masks, taken: &[u32], n: usize) -> u64
    requires { n < length taken.now }
    ensures { IsQuietSource peripherals.now (is_enabled device masks) taken.now n result }
{
    let taken = taken[n];
    match peripherals.source(n) {
        Some(source) if masks.has(device, source.vector) => source.due_from(taken),
        _ => u64::MAX,
    }
}

// A step before which no source is due whose vector these bits enable.
fn quiet_until(peripherals: &Peripherals, device: Device, masks: Masks, taken: &[u32]) -> u64
    requires { length taken.now ≡ length peripherals.now.sources }
    ensures { IsQuiet peripherals.now (is_enabled device masks) taken.now result }
{
    let mut until = u64::MAX;
    for n in 0..peripherals.count() {
        until = until.min(quiet_of(peripherals, device, masks, taken, n));
    }
    until
}

// The first timer that is pending and has its interrupt in the menu, otherwise the first such receiver.
fn first_of_all(peripherals: &Peripherals, moment: &Moment<'_>, menu: &Menu) -> Option<usize>
    requires { length moment.now.taken.now ≡ length peripherals.now.sources }
    ensures { IsPicked peripherals.now moment.now.step moment.now.taken.now menu.now result }
{
    match first_due(peripherals, true, moment, menu) {
        Some(n) => Some(n),
        None => first_due(peripherals, false, moment, menu),
    }
}

// The first timer that is pending and has its interrupt in the menu, otherwise the first such receiver. The sources are looked at one by one
// only if the enable bits are not those of the last look, or if a source that they enable may be due.
pub(crate) fn pick(
    peripherals: &Peripherals,
    quiet: &mut Quiet,
    moment: &Moment<'_>,
    menu: &Menu,
) -> Option<usize>
    requires counts { length moment.now.taken.now ≡ length peripherals.now.sources }
    requires quiet { IsQuietAsNoted peripherals.now menu.now.device quiet.old moment.now.taken.now }
    ensures picked { IsPicked peripherals.now moment.now.step moment.now.taken.now menu.now result }
    ensures quiet { IsQuietAsNoted peripherals.now menu.now.device quiet.new moment.now.taken.now }
    ensures taken { IfSome result (λ n. quiet.new.until ≡ 0) }
{
    if quiet.holds(moment.step, menu) {
        return None;
    }
    let Some(n) = first_of_all(peripherals, moment, menu) else {
        *quiet = Quiet {
            masks: menu.masks,
            until: quiet_until(peripherals, menu.device, menu.masks, moment.taken),
        };
        return None;
    };
    quiet.until = 0;
    Some(n)
}
