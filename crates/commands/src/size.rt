//! The size of an image that the program makes, and the length of a run that it simulates.

ghost use Rattle.std.specs.Prelude.{◌≡◌, ◌≤◌, ℕ};

use std::marker::Model;

/// The number of functions of the image of `demo`: 1 to 2,000.
#[derive(Clone, Copy)]
pub struct Size {
    count: u32,
}

impl Model for Size {
    ghost Value = { ℕ };

    ghost view = { λ a. a.count };

    ghost invariant = { λ a. (1 ≤ a.count) × (a.count ≤ 2000) };

    ghost inverse = { λ n. record { count = n } };
}

impl Size {
    /// The size of this many functions.
    pub fn new(count: u32) -> Size
        requires low { 1 ≤ count }
        requires high { count ≤ 2000 }
        ensures { result ≡ count }
    {
        Size { count }
    }

    /// The number of functions.
    pub fn get(&self) -> u32
        ensures value { result ≡ self.now }
        ensures low { 1 ≤ result }
        ensures high { result ≤ 2000 }
    {
        self.count
    }
}

/// The greatest number of choices of a simulated run, at most 16,777,216; a stop ends it earlier.
#[derive(Clone, Copy)]
pub struct ChoiceCount {
    count: u32,
}

impl Model for ChoiceCount {
    ghost Value = { ℕ };

    ghost view = { λ a. a.count };

    ghost invariant = { λ a. a.count ≤ 16777216 };

    ghost inverse = { λ n. record { count = n } };
}

impl ChoiceCount {
    /// This many choices.
    pub fn new(count: u32) -> ChoiceCount
        requires { count ≤ 16777216 }
        ensures { result ≡ count }
    {
        ChoiceCount { count }
    }

    /// The number of choices.
    pub fn get(self) -> u32
        ensures value { result ≡ self }
        ensures high { result ≤ 16777216 }
    {
        self.count
    }
}
