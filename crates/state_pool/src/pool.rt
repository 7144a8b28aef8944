//! The states and their counts.

ghost use Rattle.std.specs.Prelude.{ℕ, ◌≡◌, ◌<◌, IfOk, IfErr, OnErr, IsSome};
ghost use Rattle.std.specs.FinMap.{get, empty, len};
ghost use Rattle.indexmap.specs.IndexMap.{index_map_len};
ghost use Rattle.indexmap.specs.Layout.{set_value_at};
ghost use Rattle.state_pool.specs.Uses.{IsInterned, AreDistinct, AreUsed, AreBelow, IsStateHeld, released, last_state};

use crate::numbers::Numbers;
use crate::shared::Shared;
use abs_state::AbsState;
use indexmap::IndexMap;
use std::alloc::Global;
use std::marker::Model;

/// States by number, each with a count of uses. Seen as a map from numbers to both. Equal states have one number.
#[derive(Drop)]
pub struct Pool {
    // Each state and its count.
    uses: IndexMap<Shared, u32>,
    // The number of each place among these; numbers at further places are unused.
    numbers: Numbers,
}

impl Model for Pool {
    ghost use Rattle.std.specs.FinMap.{from_entries, code};
    ghost use Rattle.std.specs.Coded.{coded×, coded_ℕ};
    ghost use Rattle.abs_state.specs.contracts.state.AbsState as abs_state;
    ghost use Rattle.state_pool.specs.Uses.{Uses};
    ghost use Rattle.state_pool.specs.Places.{numbered, ArePlacesKept};

    ghost Value = { Uses };

    ghost coded = { code coded_ℕ (coded× abs_state.the_row.coded coded_ℕ) };

    ghost view = { λ p. from_entries (numbered p.numbers p.uses.entries) };

    ghost invariant = { λ p. ArePlacesKept p.numbers p.uses.entries };
}

// Sets the count at a place.
fn set_count(uses: &mut IndexMap<Shared, u32>, place: usize, count: u32)
    requires { place < index_map_len uses.old }
    ensures { uses.new.entries ≡ set_value_at uses.old.entries place count }
{
    match uses.get_index_mut(place) {
        Some(held) => *held = count,
        None => unreachable!(),
    }
}

impl Pool {
    /// No states.
    pub fn new(alloc: Global) -> Pool
        ensures { result ≡ empty }
    {
        Pool {
            uses: IndexMap::new(alloc),
            numbers: Numbers::new(alloc),
        }
    }

    /// The number of states. Each has one number, and is used.
    pub fn len(&self) -> usize
        ensures count { result ≡ len self.now }
        ensures distinct { AreDistinct self.now }
        ensures used { AreUsed self.now }
    {
        self.uses.len()
    }

    /// The state of a used number.
    pub fn get(&self, number: u32) -> &AbsState
        requires { IsSome (get self.now number) }
        ensures { (count : ℕ) × IsStateHeld self.now number result.now count }
    {
        let place = self.numbers.place(number);
        match self.uses.get_index(place) {
            Some((shared, _)) => &shared.state,
            None => unreachable!(),
        }
    }

    /// Adds one use of a state and returns its number: that of an equal state, or a new one. Returns the state if memory runs out.
    pub fn intern(&mut self, state: AbsState) -> Result<u32, AbsState>
        requires few { len self.old < 4294967295 }
        requires counts { AreBelow 4294967295 self.old }
        ensures ok { IfOk result (λ number. IsInterned self.old state number self.new) }
        ensures back { IfErr result (λ s. s ≡ state) }
        ensures err { OnErr result (self.new ≡ self.old) }
    {
        if self.numbers.reach(self.uses.len()).is_err() {
            return Err(state);
        }
        match self.uses.insert_full(Shared { state }, 1) {
            Ok((place, Some(count))) => {
                set_count(&mut self.uses, place, count + 1);
                Ok(self.numbers.number(place))
            }
            Ok((place, None)) => Ok(self.numbers.number(place)),
            Err(failed) => Err(failed.value.0.state),
        }
    }

    /// Removes one use of a used number. The last use removes the state and returns it.
    pub fn release(&mut self, number: u32) -> Option<AbsState>
        requires { IsSome (get self.old number) }
        ensures pool { self.new ≡ released self.old number }
        ensures given { result ≡ last_state (get self.old number) }
    {
        let place = self.numbers.place(number);
        let count = match self.uses.get_index(place) {
            Some((_, count)) => *count,
            None => unreachable!(),
        };
        if count > 1 {
            set_count(&mut self.uses, place, count - 1);
            None
        } else {
            let taken = self.uses.swap_remove_index(place);
            self.numbers.swap(place, self.uses.len());
            match taken {
                Some((shared, _)) => Some(shared.state),
                None => None,
            }
        }
    }
}
