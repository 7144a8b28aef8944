//! Allowances of instances: needs with slack, which are lowered as new notes ask for it. So most new notes need no new graph.

ghost use Rattle.std.specs.Prelude.{◌≡◌, ◌+◌, ◌*◌, ◌^◌, ◌<◌};

use crate::drawing::number;
use crate::exits::Exits;
use crate::notes::{NotedEntrance, NotedSpot};
use avr_model::device::Device;
use indexmap::{IndexMap, IndexSet};
use instance_graph::Composed;
use node_keys::InstKey;
use std::alloc::{AllocError, Global};

// An instance's allowance: a need that covers its offsets and entries, and a floor that covers its offsets. The need may be lowered to the
// floor.
#[derive(Clone, Copy)]
pub(crate) struct Allowance {
    pub need: u64,
    pub floor: u64,
}

// Allowances by instance.
#[derive(Drop)]
pub(crate) struct Allowances {
    // The bytes of a return address that they allow for.
    pub back: u8,
    pub map: IndexMap<InstKey, Allowance>,
}

// A number of a list, or 0.
fn number_at(numbers: &[u32], i: usize) -> u64
    ensures { result < 2 ^ 32 }
{
    u64::from(numbers.get(i).copied().unwrap_or(0))
}

// How much smaller the allowance of an entered instance is, besides the offset and the return address, in bytes: so it may be entered
// again at a greater offset.
const SLACK: u64 = 5;

// How many lowered instances are visited at most for one entrance: with more the graph is composed again.
const VISITS: usize = 256;

// The slack beyond the least ranks and needs: some for all instances alike, and some for each step of ranks.
#[derive(Clone, Copy)]
struct Room {
    base: u64,
    share: u64,
    ghost low: { (base < 2 ^ 16) × (share < 2 ^ 16) },
}

impl Room {
    // The allowance of the instance of this number.
    fn grant(self, composed: &Composed, i: usize) -> Allowance {
        let steps = number_at(composed.ranks.as_slice(), i) + 1;
        let floor = number_at(composed.needs.as_slice(), i);
        let need = floor + self.base + self.share * steps;
        Allowance { need, floor }
    }
}

impl Allowance {
    // The allowance that remains for an instance that is entered at this offset, if a return address takes `back` bytes.
    fn left(self, offset: u16, back: u8) -> Allowance {
        let used = u64::from(offset) + u64::from(back) + SLACK;
        Allowance {
            need: self.need.saturating_sub(used),
            floor: 0,
        }
    }
}

impl Allowances {
    ghost use Rattle.std.specs.Prelude.{◌≡◌, ◌<◌, ◌≤◌, ◌∷◌, [], Contains, OnOk, IfOk, IsTrue};
    ghost use Rattle.avr_model.specs.Devices.{size_of, back_of};
    ghost use Rattle.round_nesting.specs.Nestings as nestings;
    ghost use Rattle.round_nesting.specs.Covers.{allowed, AreAllowancesKept, AllowsRoot, AllowsSpot, AllowsEntrance, CoversNoted};
    ghost use Rattle.round_nesting.specs.Lowering.{IsLowered, IfYes, LowersNeeds, SettlesNeeds, CoversEntrance};

    /// No allowances.
    pub fn none(alloc: Global) -> Allowances {
        Allowances {
            back: 0,
            map: IndexMap::new(alloc),
        }
    }

    /// The allowances of the root and these others above their needs, on this device, and those that these entrances leave to
    /// instances without nodes.
    pub fn over(
        alloc: Global,
        composed: &Composed,
        others: &IndexSet<InstKey>,
        entrances: &IndexSet<NotedEntrance>,
        device: Device,
    ) -> Result<Allowances, AllocError> {
        let mut granted = Allowances {
            back: device.back(),
            map: IndexMap::new(alloc),
        };
        granted
            .grant_all(composed, others, entrances, device.size())
            .and(Ok(granted))
    }

    // Sets the allowances of the root and these others, and those that these entrances leave to instances without nodes.
    fn grant_all(
        &mut self,
        composed: &Composed,
        others: &IndexSet<InstKey>,
        entrances: &IndexSet<NotedEntrance>,
        size: u16,
    ) -> Result<(), AllocError> {
        // half of the root's remaining bytes is slack for all alike, half is divided among the steps of ranks
        let left = u64::from(size).saturating_sub(number_at(composed.needs.as_slice(), 0));
        let base = left / 2;
        let share = base / (number_at(composed.ranks.as_slice(), 0) + 1);
        let room = Room { base, share };
        self.map.insert(InstKey::root(), room.grant(composed, 0))?;
        for (at, other) in others.as_slice().iter().enumerate() {
            self.map.insert(*other, room.grant(composed, at + 1))?;
        }
        self.leave_all(others, entrances.as_slice())
    }

    // Sets the allowance of each entered instance without nodes to the least that its entrances leave.
    fn leave_all(
        &mut self,
        others: &IndexSet<InstKey>,
        entrances: &[NotedEntrance],
    ) -> Result<(), AllocError> {
        for entrance in entrances {
            if number(others, entrance.into()) > others.len() {
                self.leave_least(entrance)?;
            }
        }
        Ok(())
    }

    // Lowers the entered instance's allowance to what the entrance leaves.
    fn leave_least(&mut self, entrance: &NotedEntrance) -> Result<(), AllocError> {
        let Some(from) = self.of(entrance.from()) else {
            return Ok(());
        };
        let left = from.left(entrance.offset(), self.back);
        let key = *entrance.into();
        let most = match self.of(&key) {
            Some(most) => Allowance {
                need: most.need.min(left.need),
                floor: 0,
            },
            None => left,
        };
        self.map.insert(key, most)?;
        Ok(())
    }

    /// Sets the allowance of an entered instance that has none.
    pub fn leave(&mut self, entrance: &NotedEntrance) -> Result<(), AllocError>
        ensures kept { OnOk result (AreAllowancesKept self.old.map.entries self.new.map.entries) }
        ensures back { self.new.back ≡ self.old.back }
    {
        let key = *entrance.into();
        match (self.of(entrance.from()), self.of(&key)) {
            (Some(from), None) => {
                let left = from.left(entrance.offset(), self.back);
                self.map.insert(key, left)?;
                Ok(())
            }
            _ => Ok(()),
        }
    }

    // The instance's allowance, if it has one.
    fn of(&self, inst: &InstKey) -> Option<Allowance>
        ensures { result ≡ allowed self.now.map.entries inst.now }
    {
        self.map.get(inst).copied()
    }

    // Whether the root's need is at most this many bytes.
    fn allow_root(&self, size: u16) -> bool
        ensures { IsTrue result → AllowsRoot self.now.map.entries size }
    {
        match self.of(&InstKey::root()) {
            Some(most) => most.need <= u64::from(size),
            None => false,
        }
    }

    /// Whether the allowances are for this device: its return addresses take no more bytes, and the root's need fits its SRAM.
    pub fn serve(&self, device: Device) -> bool
        ensures some { IsTrue result → 0 < self.now.back }
        ensures back { IsTrue result → back_of device ≤ self.now.back }
        ensures root { IsTrue result → AllowsRoot self.now.map.entries (size_of device) }
    {
        device.back() <= self.back && self.allow_root(device.size())
    }

    /// Whether the allowances cover the spot.
    pub fn allow_spot(&self, spot: &NotedSpot) -> bool
        ensures { IsTrue result → AllowsSpot self.now.map.entries spot.now }
    {
        match self.of(spot.inst()) {
            Some(most) => u64::from(spot.offset()) <= most.floor && most.floor <= most.need,
            None => false,
        }
    }

    /// Makes the allowances cover the spot too, if they cover what was noted before and its instance's need covers it.
    pub fn make_room(&mut self, covered: bool, spot: &NotedSpot) -> Result<bool, AllocError>
        ensures was { IfOk result (λ done. IsTrue done → IsTrue covered) }
        ensures spot { IfOk result (λ done. IsTrue done → AllowsSpot self.new.map.entries spot.now) }
        ensures kept { IfOk result (λ done. IsTrue done → IsLowered self.old.map.entries [] self.new.map.entries) }
        ensures back { self.new.back ≡ self.old.back }
    {
        if !covered {
            return Ok(false);
        }
        let Some(most) = self.of(spot.inst()) else {
            return Ok(false);
        };
        let offset = u64::from(spot.offset());
        if offset > most.need || most.floor > most.need {
            return Ok(false);
        }
        if offset > most.floor {
            let raised = Allowance {
                need: most.need,
                floor: offset,
            };
            self.map.insert(*spot.inst(), raised)?;
        }
        Ok(true)
    }

    /// Whether the allowances cover the entrance.
    pub fn allow_entrance(&self, entrance: &NotedEntrance) -> bool
        ensures { IsTrue result → AllowsEntrance self.now.back self.now.map.entries entrance.now }
    {
        match (self.of(entrance.from()), self.of(entrance.into())) {
            (Some(from), Some(into)) => {
                into.need <= from.need
                    && u64::from(entrance.offset()) + u64::from(self.back) <= from.need - into.need
            }
            _ => false,
        }
    }

    // Lowers the entered instance's allowance to what the entrance leaves, and puts it on the list. Returns false if that is too little.
    fn lower(
        &mut self,
        entrance: &NotedEntrance,
        lowered: &mut Vec<InstKey>,
    ) -> Result<bool, AllocError>
        ensures met { IfYes result (LowersNeeds self.old lowered.old.items (entrance.now ∷ []) self.new lowered.new.items) }
        ensures back { self.new.back ≡ self.old.back }
    {
        let (Some(from), Some(into)) = (self.of(entrance.from()), self.of(entrance.into())) else {
            return Ok(false);
        };
        let used = u64::from(entrance.offset()) + u64::from(self.back);
        let Some(left) = from.need.checked_sub(used) else {
            return Ok(false);
        };
        if into.need <= left {
            return Ok(true);
        }
        if left < into.floor {
            return Ok(false);
        }
        let less = Allowance {
            need: left.saturating_sub(SLACK).max(into.floor),
            floor: into.floor,
        };
        lowered.push(*entrance.into())?;
        self.map.insert(*entrance.into(), less)?;
        Ok(true)
    }

    // Does so for each of these entrances.
    fn lower_all(
        &mut self,
        entrances: &[NotedEntrance],
        lowered: &mut Vec<InstKey>,
    ) -> Result<bool, AllocError>
        ensures met { IfYes result (LowersNeeds self.old lowered.old.items entrances.now self.new lowered.new.items) }
        ensures back { self.new.back ≡ self.old.back }
    {
        for entrance in entrances {
            if !self.lower(entrance, lowered)? {
                return Ok(false);
            }
        }
        Ok(true)
    }

    // Lowers what the lowered instances enter, and so on. Returns false if that is too little or takes long.
    fn settle(&mut self, exits: &Exits, lowered: Vec<InstKey>) -> Result<bool, AllocError>
        ensures settled { IfYes result (SettlesNeeds self.old exits.now lowered.items self.new) }
        ensures back { self.new.back ≡ self.old.back }
    {
        let mut lowered = lowered;
        for at in 0..VISITS {
            if at >= lowered.len() {
                return Ok(true);
            }
            let inst = lowered[at];
            if let Some(entrances) = exits.at(&inst) {
                if !self.lower_all(entrances, &mut lowered)? {
                    return Ok(false);
                }
            }
        }
        Ok(false)
    }

    /// Makes the allowances cover the new entrance too, which is among the exits, if they cover what was noted before, and lowering some of
    /// them does and does not take long.
    pub fn enter(
        &mut self,
        alloc: Global,
        covered: bool,
        entrance: &NotedEntrance,
        exits: &Exits,
    ) -> Result<bool, AllocError>
        ensures was { IfOk result (λ done. IsTrue done → IsTrue covered) }
        ensures covers { IfYes result (CoversEntrance self.old exits.now entrance.now self.new) }
        ensures back { self.new.back ≡ self.old.back }
    {
        if !covered {
            return Ok(false);
        }
        let mut lowered = Vec::new(alloc);
        if !self.lower(entrance, &mut lowered)? {
            return Ok(false);
        }
        self.settle(exits, lowered)
    }

    // Whether the allowances cover all spots.
    fn allow_spots(&self, spots: &[NotedSpot]) -> bool
        ensures { IsTrue result → (s : nestings.Spot) → Contains spots.now s → AllowsSpot self.now.map.entries s }
    {
        for spot in spots {
            if !self.allow_spot(spot) {
                return false;
            }
        }
        true
    }

    // Whether the allowances cover all entrances.
    fn allow_entrances(&self, entrances: &[NotedEntrance]) -> bool
        ensures { IsTrue result → (x : _) → Contains entrances.now x → AllowsEntrance self.now.back self.now.map.entries x }
    {
        for entrance in entrances {
            if !self.allow_entrance(entrance) {
                return false;
            }
        }
        true
    }

    /// Whether the allowances cover all spots and entrances.
    pub fn cover(&self, spots: &IndexSet<NotedSpot>, entrances: &IndexSet<NotedEntrance>) -> bool
        ensures { IsTrue result → CoversNoted self.now.back self.now.map.entries spots.now.keys entrances.now.keys }
    {
        self.allow_spots(spots.as_slice()) && self.allow_entrances(entrances.as_slice())
    }
}
