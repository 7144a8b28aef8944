//! Whether the conditions of nodes on their slots are met.

ghost use Rattle.std.specs.Prelude.{◌≡◌, length, OnOk};
ghost use Rattle.clear_laws.specs.Reach.{AreInside};
ghost use Rattle.store_clear.specs.Conditions.{discharged, AreMarkedOff, IsSlotDischarged, AreDischarged};

use crate::reach::reached;
use crate::spreading::Frames;
use clear_laws::slots::Condition;
use std::alloc::{AllocError, Global};

// The condition that remains; `held` says whether the slot may hold a live byte there.
fn discharged(conditions: Condition, slot: u16, held: bool) -> Condition
    ensures { result ≡ discharged conditions slot held }
{
    match conditions {
        Condition::SlotFree(other) if other == slot => {
            if held {
                Condition::Never
            } else {
                Condition::Always
            }
        }
        _ => conditions,
    }
}

// The conditions that remain, by marks of the nodes at which the slot may hold a live byte.
fn mark_off(conditions: &mut [Condition], slot: u16, marks: &[bool])
    requires { length marks.now ≡ length conditions.old }
    ensures { AreMarkedOff slot marks.now (length conditions.old) conditions.old conditions.new }
{
    for at in 0..conditions.len() {
        conditions[at] = discharged(conditions[at], slot, marks[at]);
    }
}

// Discharges one slot along these edges.
fn discharge_slot(
    alloc: Global,
    frames: &Frames,
    conditions: &mut [Condition],
    slot: u16,
) -> Result<(), AllocError>
    requires inside { AreInside frames.now.links frames.now.offsets frames.now.seeds }
    requires same { length conditions.old ≡ length frames.now.offsets }
    ensures { OnOk result (IsSlotDischarged frames.now.links frames.now.offsets frames.now.seeds slot conditions.old conditions.new) }
{
    let links = frames.links.as_slice();
    let offsets = frames.offsets.as_slice();
    let marks = reached(alloc, links, offsets, frames.seeds.as_slice(), slot)?;
    mark_off(conditions, slot, &marks);
    Ok(())
}

// Discharges the conditions of all nodes: none names a slot any more. The marks of a slot are computed once for all nodes that name it.
pub(crate) fn discharge(
    alloc: Global,
    frames: &Frames,
    conditions: &mut [Condition],
) -> Result<(), AllocError>
    requires inside { AreInside frames.now.links frames.now.offsets frames.now.seeds }
    requires same { length conditions.old ≡ length frames.now.offsets }
    ensures { OnOk result (AreDischarged frames.now.links frames.now.offsets frames.now.seeds (length conditions.old) conditions.old conditions.new) }
{
    for at in 0..conditions.len() {
        if let Condition::SlotFree(slot) = conditions[at] {
            discharge_slot(alloc, frames, conditions, slot)?;
        }
    }
    Ok(())
}
