//! The nesting of a family's instances.

ghost use Rattle.std.specs.Prelude.{◌≡◌, ◌≤◌, length, IfOk, OnOk};
ghost use Rattle.avr_model.specs.State.{SIZE};
ghost use Rattle.node_keys.specs.Keys.{offset_of};
ghost use Rattle.round_nesting.specs.Nestings.{Noted, nothing, AreOnce, IsNodeNoted, HasEntrance, AreAlike, TellsAll, entrance_of};
ghost use Rattle.round_nesting.specs.Drawn.{insts_of, AreOthersApart, HasMore};

use crate::allowances::Allowances;
use crate::exits::Exits;
use crate::judging::judge_noted;
use crate::notes::{NotedEntrance, NotedSpot};
use crate::verdict::NestingVerdict;
use avr_model::device::Device;
use indexmap::IndexSet;
use node_keys::{InstKey, NodeKey, SpForm};
use std::alloc::{AllocError, Global};
use std::marker::Model;

/// Notes of a family: the instances with nodes, the offsets of these nodes, and the entrances. Seen as the notes.
#[derive(Drop)]
pub struct Nesting {
    alloc: Global,
    covered: bool,
    allowances: Allowances,
    has_root: bool,
    others: IndexSet<InstKey>,
    spots: IndexSet<NotedSpot>,
    entrances: IndexSet<NotedEntrance>,
    exits: Exits,
}

impl Model for Nesting {
    ghost use Rattle.round_nesting.specs.Nestings.{Noted};
    ghost use Rattle.round_nesting.specs.Drawn.{noted_of};
    ghost use Rattle.round_nesting.specs.Covers.{AreNotesKept};

    ghost Value = { Noted };

    ghost view = { λ n. noted_of n.has_root n.others.keys n.spots.keys n.entrances.keys };

    ghost invariant = { λ n. AreNotesKept n.covered n.allowances n.exits n.others.keys n.spots.keys n.entrances.keys };
}

// Notes an instance, if it is new.
fn keep_inst(
    has_root: &mut bool,
    others: &mut IndexSet<InstKey>,
    inst: &InstKey,
) -> Result<(), AllocError>
    requires apart { AreOthersApart others.old.keys }
    ensures apart { AreOthersApart others.new.keys }
    ensures more { OnOk result (HasMore (insts_of has_root.old others.old.keys) inst.now (insts_of has_root.new others.new.keys)) }
{
    if *inst == InstKey::root() {
        *has_root = true;
        return Ok(());
    }
    others.insert(*inst)?;
    Ok(())
}

impl Nesting {
    /// No notes.
    pub fn new(alloc: Global) -> Nesting
        ensures { result ≡ nothing }
    {
        Nesting {
            alloc,
            covered: false,
            allowances: Allowances::none(alloc),
            has_root: false,
            others: IndexSet::new(alloc),
            spots: IndexSet::new(alloc),
            entrances: IndexSet::new(alloc),
            exits: Exits::new(alloc),
        }
    }

    /// The number of noted instances.
    pub fn count(&self) -> usize
        ensures { result ≡ length self.now.insts }
    {
        let others = self.others.len();
        if self.has_root { others + 1 } else { others }
    }

    /// Notes a node: its instance, and its offset if its stack pointer is whole. It may have a note already.
    pub fn note_node(&mut self, key: &NodeKey) -> Result<(), AllocError>
        requires { offset_of key.now.sp ≤ SIZE }
        ensures node { OnOk result (IsNodeNoted self.old key.now self.new) }
        ensures once { OnOk result (AreOnce self.new.insts) }
    {
        let covered = self.covered;
        self.covered = false;
        keep_inst(&mut self.has_root, &mut self.others, &key.inst)?;
        match key.sp {
            SpForm::Closed(offset) => {
                let spot = NotedSpot::new(key.inst, offset);
                let covered = self.allowances.make_room(covered, &spot)?;
                self.spots.insert(spot)?;
                self.covered = covered;
                Ok(())
            }
            SpForm::Open(_, _) => {
                self.covered = covered;
                Ok(())
            }
        }
    }

    /// Notes that the second instance lies below the first at this depth. It may have a note already.
    pub fn note_entrance(
        &mut self,
        from: &InstKey,
        into: &InstKey,
        offset: u16,
    ) -> Result<(), AllocError>
        requires { offset ≤ SIZE }
        ensures entrance { OnOk result (HasEntrance self.old (entrance_of from.now into.now offset) self.new) }
        ensures once { OnOk result (AreOnce self.new.insts) }
    {
        let entrance = NotedEntrance::new(*from, *into, offset);
        if self.entrances.contains(&entrance) {
            return Ok(());
        }
        let covered = self.covered;
        self.covered = false;
        let exit = NotedEntrance::new(*from, *into, offset);
        self.exits.add(self.alloc, exit)?;
        self.allowances.leave(&entrance)?;
        let covered = self
            .allowances
            .enter(self.alloc, covered, &entrance, &self.exits)?;
        self.entrances.insert(entrance)?;
        self.covered = covered;
        Ok(())
    }

    /// The verdict on the nesting for this device. The notes stay. If the root has no node, the verdict claims
    /// nothing.
    pub fn judge(&mut self, device: Device) -> Result<NestingVerdict, AllocError>
        requires { length self.old.insts ≤ 65536 }
        ensures tells { IfOk result (λ w. TellsAll device self.old w) }
        ensures same { AreAlike self.old self.new }
        ensures once { AreOnce self.new.insts }
    {
        if self.covered && self.allowances.serve(device) {
            return Ok(NestingVerdict::Nests);
        }
        if !self.has_root {
            return Ok(NestingVerdict::Nests);
        }
        let judged = judge_noted(
            self.alloc,
            &self.others,
            &self.spots,
            &self.entrances,
            device,
        )?;
        self.covered = judged.allowances.cover(&self.spots, &self.entrances);
        self.allowances = judged.allowances;
        Ok(judged.verdict)
    }
}
