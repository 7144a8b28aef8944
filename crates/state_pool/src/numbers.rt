//! A permutation: numbers by place, and places by number.

ghost use Rattle.std.specs.Prelude.{ℕ, ◌≡◌, ◌<◌, ◌≤◌, [], length, OnOk, OnErr};
ghost use Rattle.std.specs.List.{swap};
ghost use Rattle.state_pool.specs.Numbers.{number_at, AreNumbers, IsPlaceReached};

use std::alloc::{AllocError, Global};
use std::marker::Model;

/// The numbers from 0 on, each at one place. Seen as the list of numbers by place.
#[derive(Drop)]
pub struct Numbers {
    numbers: Vec<u32>,
    places: Vec<u32>,
}

impl Model for Numbers {
    ghost use Rattle.std.specs.Prelude.{ℕ, List};
    ghost use Rattle.state_pool.specs.Numbers.{AreInverse};

    ghost Value = { List ℕ };

    ghost view = { λ s. s.numbers.items };

    ghost invariant = { λ s. AreInverse s.numbers.items s.places.items };
}

impl Numbers {
    /// No numbers.
    pub fn new(alloc: Global) -> Numbers
        ensures { result ≡ [] }
    {
        Numbers {
            numbers: Vec::new(alloc),
            places: Vec::new(alloc),
        }
    }

    /// The count of numbers; each has one place.
    pub fn len(&self) -> usize
        ensures count { result ≡ length self.now }
        ensures once { AreNumbers self.now }
    {
        self.numbers.len()
    }

    /// The number at a place.
    pub fn number(&self, place: usize) -> u32
        requires { place < length self.now }
        ensures { result ≡ number_at self.now place }
    {
        self.numbers[place]
    }

    /// The place of a number.
    pub fn place(&self, number: u32) -> usize
        requires { number < length self.now }
        ensures low { result < length self.now }
        ensures place { number_at self.now result ≡ number }
    {
        self.places[number as usize] as usize
    }

    /// Ensures that this place has a number, which is a new one if the place is the first free one. Fails if memory runs out.
    pub fn reach(&mut self, place: usize) -> Result<(), AllocError>
        requires { (place ≤ length self.old) × (place < 4294967295) }
        ensures ok { OnOk result (IsPlaceReached self.old place self.new) }
        ensures err { OnErr result (self.new ≡ self.old) }
        ensures once { AreNumbers self.new }
    {
        if place < self.len() {
            return Ok(());
        }
        let number = self.numbers.len() as u32;
        self.numbers.push(number)?;
        if self.places.push(number).is_err() {
            self.numbers.pop();
            return Err(AllocError);
        }
        Ok(())
    }

    /// Swaps the numbers at two places.
    pub fn swap(&mut self, place: usize, other: usize)
        requires { (place < length self.old) × (other < length self.old) }
        ensures swapped { self.new ≡ swap self.old place other }
        ensures once { AreNumbers self.new }
    {
        let number = self.number(place);
        let next = self.number(other);
        self.numbers.swap(place, other);
        self.places.swap(number as usize, next as usize);
    }
}
