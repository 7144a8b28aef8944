//! Notes of visits: the nodes that enter or leave an instance, and the nesting of instances.

ghost use Rattle.std.specs.Prelude.{◌≡◌, ◌≤◌, OnOk, Contains};
ghost use Rattle.avr_model.specs.State.{SIZE};
ghost use Rattle.node_keys.specs.Keys.{offset_of};
ghost use Rattle.round_nesting.specs.Nestings.{AreOnce};
ghost use Rattle.round_steps.specs.Notings.{blank, HasCallers, HasLeaver, HasEntrances, EntersBy, EnterBy, RecursBy, IsNoted, AreNoted};
ghost use Rattle.round_steps.specs.declared.looking.Look as look_type;

use crate::looking::Look;
use family_edges::Task;
use family_edges::ways::Way;
use local_rules::Exit;
use node_keys::{EdgeKind, InstKey, NodeKey};
use round_nesting::Nesting;
use round_table::{Crossing, Crossings};
use std::alloc::{AllocError, Global};
use vector_table::Assumptions;

/// The notes of visits.
#[derive(Drop)]
pub struct Notes {
    /// For each entered instance, the nodes that enter it, with their return addresses.
    pub callers: Crossings,
    /// For each instance, the nodes that leave it, with their exits.
    pub leavers: Crossings,
    /// The nesting of instances.
    pub nesting: Nesting,
}

// Notes that a node enters an instance, unless that is cut.
fn note_entry(
    nesting: &mut Nesting,
    assumptions: &Assumptions,
    key: &NodeKey,
    into: &InstKey,
) -> Result<(), AllocError>
    requires small { offset_of key.now.sp ≤ SIZE }
    requires once { AreOnce nesting.old.insts }
    ensures entrances { OnOk result (HasEntrances nesting.old (EntersBy assumptions.now key.now into.now) nesting.new) }
    ensures once { OnOk result (AreOnce nesting.new.insts) }
{
    if into.cut(assumptions).is_some() {
        return Ok(());
    }
    nesting.note_entrance(&key.inst, into, key.offset())?;
    Ok(())
}

// Notes that the instance of a node lies below the root, if it is cut.
fn note_recur(
    nesting: &mut Nesting,
    assumptions: &Assumptions,
    inst: &InstKey,
) -> Result<(), AllocError>
    requires once { AreOnce nesting.old.insts }
    ensures entrances { OnOk result (HasEntrances nesting.old (RecursBy assumptions.now inst.now) nesting.new) }
    ensures once { OnOk result (AreOnce nesting.new.insts) }
{
    // These entries are those of a valid list of assumptions.
    let _entries = assumptions.entries();
    let Some(depth) = inst.cut(assumptions) else {
        return Ok(());
    };
    nesting.note_entrance(&InstKey::root(), inst, depth)?;
    Ok(())
}

// Notes each instance that a node enters.
fn note_ways(
    callers: &mut Crossings,
    nesting: &mut Nesting,
    task: &Task<'_>,
    key: &NodeKey,
    ways: &[Way],
) -> Result<(), AllocError>
    requires small { offset_of key.now.sp ≤ SIZE }
    requires once { AreOnce nesting.old.insts }
    ensures callers { OnOk result (HasCallers callers.old key.now ways.now callers.new) }
    ensures entrances { OnOk result (HasEntrances nesting.old (EnterBy task.now.assumptions.now key.now ways.now) nesting.new) }
    ensures once { OnOk result (AreOnce nesting.new.insts) }
{
    for at in 0..ways.len() {
        let way = &ways[at];
        let caller = Crossing {
            node: *key,
            kind: way.kind,
            back: way.back,
            exit: Exit {
                masks: key.masks,
                i: key.i,
                delay: key.delay,
            },
        };
        callers.add(task.alloc, way.inst, caller)?;
        note_entry(nesting, task.assumptions, key, &way.inst)?;
    }
    Ok(())
}

// Notes the exit of a node, if it has one.
fn note_leaver(
    leavers: &mut Crossings,
    alloc: Global,
    key: &NodeKey,
    exit: Option<Exit>,
) -> Result<(), AllocError>
    ensures { OnOk result (HasLeaver leavers.old key.now exit leavers.new) }
{
    let Some(exit) = exit else {
        return Ok(());
    };
    let leaver = Crossing {
        node: *key,
        kind: EdgeKind::Return,
        back: key.pc,
        exit,
    };
    leavers.add(alloc, key.inst, leaver)?;
    Ok(())
}

impl Notes {
    /// No notes.
    pub fn new(alloc: Global) -> Notes
        ensures { result ≡ blank }
    {
        Notes {
            callers: Crossings::new(alloc),
            leavers: Crossings::new(alloc),
            nesting: Nesting::new(alloc),
        }
    }

    // Notes the result of one visit.
    fn note(&mut self, task: &Task<'_>, x: &Look) -> Result<(), AllocError>
        requires { offset_of x.now.key.sp ≤ SIZE }
        ensures noted { OnOk result (IsNoted task.now.assumptions.now self.old x.now self.new) }
        ensures once { OnOk result (AreOnce self.new.nesting.insts) }
    {
        self.nesting.note_node(&x.key)?;
        note_recur(&mut self.nesting, task.assumptions, &x.key.inst)?;
        note_ways(&mut self.callers, &mut self.nesting, task, &x.key, &x.ways)?;
        note_leaver(&mut self.leavers, task.alloc, &x.key, x.part.exit)?;
        Ok(())
    }

    /// Notes the results of these visits.
    pub fn note_all(&mut self, task: &Task<'_>, looks: &[Look]) -> Result<(), AllocError>
        requires small { (x : look_type.Look) → Contains looks.now x → offset_of x.key.sp ≤ SIZE }
        requires once { AreOnce self.old.nesting.insts }
        ensures noted { OnOk result (AreNoted task.now.assumptions.now self.old looks.now self.new) }
        ensures once { OnOk result (AreOnce self.new.nesting.insts) }
    {
        for at in 0..looks.len() {
            self.note(task, &looks[at])?;
        }
        Ok(())
    }
}
