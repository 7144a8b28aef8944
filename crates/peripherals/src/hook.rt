//! Hooks: closures that choose among interrupt sources.

ghost use Rattle.std.specs.Prelude.{◌≡◌, length};
ghost use Rattle.peripherals.specs.Spelling.{Setup};
ghost use Rattle.peripherals.specs.Hooks.{MayAnswer, IsHook};

use crate::peripherals::Peripherals;
use avr_machine::Menu;
use std::marker::Model;

/// The moment at which a hook is called.
#[derive(Clone, Copy)]
pub struct Moment<'a> {
    /// The number of steps so far.
    pub step: u32,
    /// How often each source was taken so far.
    pub taken: &'a [u32],
}

/// A closure that chooses a source of some peripherals. `new` requires, and each call again, that it may be called on every menu and moment
/// with a count for each source, and returns a source whose interrupt is in the menu, or none. Contracts see the peripherals and the closure.
#[derive(Drop)]
pub struct Hook<'a, F> {
    peripherals: &'a Peripherals,
    f: F,
}

impl<'a, F> Model for Hook<'a, F> {
    ghost use Rattle.peripherals.specs.Spelling.{Setup};

    ghost Value = { Setup × F };

    ghost view = { λ h. (h.peripherals.now, h.f) };
}

impl<'a, F: Fn(&Moment<'_>, &Menu) -> Option<usize>> Hook<'a, F> {
    /// The hook of this closure.
    pub fn new(peripherals: &'a Peripherals, f: F) -> Hook<'a, F>
        requires { IsHook F.Fn peripherals.now f }
        ensures is { result ≡ (peripherals.now, f) }
        ensures hook { IsHook F.Fn result.0 result.1 }
    {
        Hook { peripherals, f }
    }

    /// The closure's answer at this moment, to this menu.
    pub fn ask(&self, moment: &Moment<'_>, menu: &Menu) -> Option<usize>
        requires hook { IsHook F.Fn self.now.0 self.now.1 }
        requires counts { length moment.now.taken.now ≡ length self.now.0.sources }
        ensures { MayAnswer F.Fn self.now.1 moment.now.step moment.now.taken.now menu.now result }
    {
        (self.f)(moment, menu)
    }
}
