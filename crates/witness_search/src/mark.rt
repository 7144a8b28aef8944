//! Marked places of a trial, to detect that it repeats itself.

ghost use Rattle.std.specs.Prelude.{◌≡◌, IsTrue, length};

use crate::waypoint::Waypoint;
use avr_machine::Machine;
use avr_model::device::Device;

// A place of a trial: the machine, the number of waypoints left, and the step until which the mark is kept.
#[derive(Drop)]
pub(crate) struct Mark {
    machine: Machine,
    left: usize,
    until: u32,
}

impl Mark {
    // A place of no trial yet.
    pub(crate) fn new(device: Device) -> Mark {
        Mark {
            machine: Machine::start(device, 0),
            left: 0,
            until: 0,
        }
    }

    // Moves to the place after this many steps, kept for as many more. A trial that repeats itself is then ended after at most about three
    // times the steps to the first repeated state.
    pub(crate) fn set(&mut self, at: u32, machine: &Machine, rest: &[Waypoint])
        ensures machine { self.new.machine ≡ machine.now }
        ensures left { self.new.left ≡ length rest.now }
    {
        self.machine.copy_from(machine);
        self.left = rest.len();
        self.until = at.saturating_mul(2);
    }

    // Whether a new place must be marked after this many steps.
    pub(crate) fn is_old(&self, at: u32) -> bool {
        self.until <= at
    }

    // Whether the trial is in the same state again, with as many waypoints left.
    pub(crate) fn is_met(&self, machine: &Machine, rest: &[Waypoint]) -> bool
        ensures state { IsTrue result → machine.now.state ≡ self.now.machine.state }
        ensures left { IsTrue result → length rest.now ≡ self.now.left }
    {
        rest.len() == self.left && machine.is_where(&self.machine)
    }
}
