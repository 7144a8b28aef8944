//! Checks whether the rounds end at a family that was found in another order. Nodes are visited one by one, to hold little memory.

ghost use Rattle.std.specs.Prelude.{◌≡◌, ◌∷◌, [], Contains, None, Some, OnOk, IfOk};
ghost use Rattle.std.specs.FinMap.{get};
ghost use Rattle.avr_model.specs.Devices.{device_of};
ghost use Rattle.avr_model.specs.Assumptions.{has_pairs};
ghost use Rattle.abs_state.specs.declared.state.AbsState as state_type;
ghost use Rattle.node_keys.specs.declared.keys.NodeKey as key_type;
ghost use Rattle.round_nesting.specs.Nestings.{AreOnce};
ghost use Rattle.round_rules.specs.Families.{AreFormed, cells};
ghost use Rattle.round_laws.specs.Closed.{IsMade};
ghost use Rattle.round_steps.specs.Looks.{AreSeen};
ghost use Rattle.round_steps.specs.Notings.{blank};
ghost use Rattle.fixpoint.specs.Progress.{AreKnown, AreRoundsFound};
ghost use Rattle.fixpoint.specs.Confirm.{AreKnownAt, LandAt};
ghost use Rattle.family_edges.specs.Tasks.{task_of};

use crate::checking::{check_nesting, check_size, note_seen};
use crate::unfound::Unfound;
use family_edges::Task;
use node_keys::NodeKey;
use round_rules::Refusal;
use round_steps::targets::targets;
use round_steps::{Notes, SeenState, look_all};
use round_table::Table;
use std::alloc::AllocError;

// The result of a visit of one node.
fn look_at(task: &Task<'_>, table: &Table, key: &NodeKey) -> Result<SeenState, AllocError>
    requires { AreFormed (device_of task.now.flash.now) (has_pairs task.now.assumptions.now) table.now }
    ensures { IfOk result (λ seen. AreSeen (task_of task.now) table.now (key.now ∷ []) seen) }
{
    let one = [*key];
    look_all(task, table, &one)
}

// Notes the results of visits of these nodes.
fn note_each(
    task: &Task<'_>,
    table: &Table,
    notes: &mut Notes,
    keys: &[NodeKey],
) -> Result<(), Refusal>
    requires formed { AreFormed (device_of task.now.flash.now) (has_pairs task.now.assumptions.now) table.now }
    requires no_notes { notes.old ≡ blank }
    ensures known { OnOk result (AreKnownAt (task_of task.now) table.now keys.now notes.new) }
    ensures once { OnOk result (AreOnce notes.new.nesting.insts) }
{
    for at in 0..keys.len() {
        let seen = look_at(task, table, &keys[at])?;
        let told = note_seen(task, notes, &seen);
        drop(seen);
        told?;
    }
    Ok(())
}

// Checks that the edges of these nodes land.
fn check_all_edges(
    task: &Task<'_>,
    table: &Table,
    notes: &Notes,
    keys: &[NodeKey],
) -> Result<(), Unfound>
    requires formed { AreFormed (device_of task.now.flash.now) (has_pairs task.now.assumptions.now) table.now }
    requires known { AreKnown (task_of task.now) table.now notes.now }
    ensures { OnOk result (LandAt (task_of task.now) table.now keys.now) }
{
    for at in 0..keys.len() {
        let seen = look_at(task, table, &keys[at])?;
        let nodes = targets(task.alloc, table, notes, seen.looks)?;
        let lands = nodes.is_empty();
        drop(nodes);
        if !lands {
            return Err(Unfound);
        }
    }
    Ok(())
}

/// Checks that the family, whose nodes have these keys, is closed and that no test holds on it. The notes must be empty.
pub fn confirm(
    task: &Task<'_>,
    table: &Table,
    counted: u64,
    notes: &mut Notes,
    keys: &[NodeKey],
) -> Result<(), Unfound>
    requires made { IsMade (task_of task.now) table.now }
    requires count { counted ≡ cells table.now }
    requires no_notes { notes.old ≡ blank }
    requires all { (k : key_type.NodeKey) (s : state_type.AbsState) → get table.now k ≡ Some s → Contains keys.now k }
    ensures { OnOk result (AreRoundsFound (task_of task.now) None table.now) }
{
    check_size(table, counted)?;
    note_each(task, table, notes, keys)?;
    check_nesting(task.flash, &mut notes.nesting)?;
    check_all_edges(task, table, notes, keys)?;
    Ok(())
}
