//! Notes of a family, as keys of a hash table.

ghost use Rattle.std.specs.Prelude.{◌≡◌, ◌≤◌};
ghost use Rattle.avr_model.specs.State.{SIZE};
ghost use Rattle.round_nesting.specs.Hashes.{same_spot, spots_equivalence, same_entrance, entrances_equivalence, spot_hash, spot_alike, entrance_hash, entrance_alike};

use node_keys::InstKey;
use std::hash::{Hash, Hasher};
use std::marker::Model;

// An instance with a node at this offset, at most 16,384, whose stack pointer is whole.
#[derive(Drop)]
pub(crate) struct NotedSpot {
    inst: InstKey,
    offset: u16,
}

impl Model for NotedSpot {
    ghost use Rattle.std.specs.Prelude.{◌≤◌};
    ghost use Rattle.avr_model.specs.State.{SIZE};
    ghost use Rattle.round_nesting.specs.Nestings.{Spot};

    ghost Value = { Spot };

    ghost view = { λ x. record { inst = x.inst; offset = x.offset } };

    ghost invariant = { λ x. x.offset ≤ SIZE };
}

impl NotedSpot {
    pub fn new(inst: InstKey, offset: u16) -> NotedSpot
        requires { offset ≤ SIZE }
        ensures { result ≡ record { inst = inst; offset = offset } }
    {
        NotedSpot { inst, offset }
    }

    pub fn inst(&self) -> &InstKey
        ensures { result.now ≡ self.now.inst }
    {
        &self.inst
    }

    pub fn offset(&self) -> u16
        ensures is { result ≡ self.now.offset }
        ensures low { result ≤ SIZE }
    {
        self.offset
    }
}

impl PartialEq for NotedSpot {
    ghost eq = { same_spot };

    ghost laws = { spots_equivalence.0 };

    fn eq(&self, other: &NotedSpot) -> bool {
        self.inst == other.inst && self.offset == other.offset
    }
}

impl Eq for NotedSpot {
    ghost laws = { spots_equivalence.1 };
}

impl Hash for NotedSpot {
    ghost hash_input = { spot_hash };

    ghost respects_eq = { spot_alike };

    fn hash<H: Hasher>(&self, state: &mut H) {
        self.inst.hash(state);
        self.offset.hash(state);
    }
}

// The second instance lies below the first, at this depth of at most 16,384.
#[derive(Drop)]
pub(crate) struct NotedEntrance {
    from: InstKey,
    into: InstKey,
    offset: u16,
}

impl Model for NotedEntrance {
    ghost use Rattle.std.specs.Prelude.{◌≤◌};
    ghost use Rattle.avr_model.specs.State.{SIZE};
    ghost use Rattle.round_nesting.specs.Nestings.{Entrance};

    ghost Value = { Entrance };

    ghost view = { λ x. record { from = x.from; into = x.into; offset = x.offset } };

    ghost invariant = { λ x. x.offset ≤ SIZE };
}

impl NotedEntrance {
    pub fn new(from: InstKey, into: InstKey, offset: u16) -> NotedEntrance
        requires { offset ≤ SIZE }
        ensures { result ≡ record { from = from; into = into; offset = offset } }
    {
        NotedEntrance { from, into, offset }
    }

    pub fn from(&self) -> &InstKey
        ensures { result.now ≡ self.now.from }
    {
        &self.from
    }

    pub fn into(&self) -> &InstKey
        ensures { result.now ≡ self.now.into }
    {
        &self.into
    }

    pub fn offset(&self) -> u16
        ensures is { result ≡ self.now.offset }
        ensures low { result ≤ SIZE }
    {
        self.offset
    }
}

impl PartialEq for NotedEntrance {
    ghost eq = { same_entrance };

    ghost laws = { entrances_equivalence.0 };

    fn eq(&self, other: &NotedEntrance) -> bool {
        self.from == other.from && self.into == other.into && self.offset == other.offset
    }
}

impl Eq for NotedEntrance {
    ghost laws = { entrances_equivalence.1 };
}

impl Hash for NotedEntrance {
    ghost hash_input = { entrance_hash };

    ghost respects_eq = { entrance_alike };

    fn hash<H: Hasher>(&self, state: &mut H) {
        self.from.hash(state);
        self.into.hash(state);
        self.offset.hash(state);
    }
}
