//! Entries of other instances from a node.

ghost use Rattle.std.specs.Prelude.{◌≡◌, ◌≤◌, map, true, IfOk};
ghost use Rattle.avr_model.specs.Devices.{device_of};
ghost use Rattle.avr_model.specs.Vectors.{last_vector, watchdog};
ghost use Rattle.family_edges.specs.Ways.{call_way, vector_way, at_vector, ways_of, at_vectors};
ghost use Rattle.family_edges.specs.Tasks.{task_of};
ghost use Rattle.family_edges.specs.Clauses.{Grows};

use crate::task::Task;
use local_rules::CallSite;
use node_keys::{EdgeKind, InstKey, Kind, NodeKey, SpForm};
use std::alloc::AllocError;

/// An entry of an instance: its kind, the instance, and the return address. Source: own.
#[derive(Clone, Copy)]
pub struct Way {
    /// A call or an interrupt.
    pub kind: EdgeKind,
    /// The entered instance.
    pub inst: InstKey,
    /// The word after the call, or the interrupted one.
    pub back: u32,
}

// The entry by a call.
fn call_way(key: &NodeKey, site: CallSite) -> Way
    ensures { result ≡ call_way key.now site }
{
    Way {
        kind: EdgeKind::Call,
        inst: InstKey {
            kind: Kind::Call,
            entry: site.entry,
            masks: key.masks,
            i: key.i,
        },
        back: site.back,
    }
}

// The entry by an interrupt.
fn vector_way(task: &Task<'_>, key: &NodeKey, v: u8, clears: bool) -> Way
    requires low { 2 ≤ v }
    requires high { v ≤ last_vector (device_of task.now.flash.now) }
    requires cleared { clears ≡ true → v ≡ watchdog (device_of task.now.flash.now) }
    ensures { result ≡ vector_way task.now.flash.now key.now v clears }
{
    let device = task.flash.device();
    let masks = if clears {
        key.masks.with(device, v, false)
    } else {
        key.masks
    };
    Way {
        kind: EdgeKind::Interrupt(v, clears),
        inst: InstKey {
            kind: Kind::Vector(v),
            entry: device.vector_word(v),
            masks,
            i: false,
        },
        back: key.pc,
    }
}

// The entries by calls.
fn add_calls(ways: &mut Vec<Way>, key: &NodeKey, calls: &[CallSite]) -> Result<(), AllocError>
    ensures { Grows result ways.old.items ways.new.items (map (call_way key.now) calls.now) }
{
    for site in calls {
        ways.push(call_way(key, *site))?;
    }
    Ok(())
}

// The entries by a vector's interrupt, if it is enabled and its word has no `never` line.
fn add_vector(ways: &mut Vec<Way>, task: &Task<'_>, key: &NodeKey, v: u8) -> Result<(), AllocError>
    requires low { 2 ≤ v }
    requires high { v ≤ last_vector (device_of task.now.flash.now) }
    ensures { Grows result ways.old.items ways.new.items (at_vector (task_of task.now) key.now v) }
{
    let device = task.flash.device();
    // most vectors of a node are disabled: a look at the bit is all that they cost
    if !key.masks.is_on(device, v) && !device.is_open_vector(v) {
        return Ok(());
    }
    if key.masks.has(device, v) && !task.assumptions.never(device.vector_word(v)) {
        ways.push(vector_way(task, key, v, false))?;
        if v == device.watchdog() {
            ways.push(vector_way(task, key, v, true))?;
        }
    }
    Ok(())
}

// The entries by all interrupts.
fn add_vectors(ways: &mut Vec<Way>, task: &Task<'_>, key: &NodeKey) -> Result<(), AllocError>
    ensures { Grows result ways.old.items ways.new.items (at_vectors (task_of task.now) key.now) }
{
    for n in 0..task.flash.device().last_vector() - 1 {
        add_vector(ways, task, key, n + 2)?;
    }
    Ok(())
}

/// The entries of other instances from a node with these calls, on the device: its calls, then interrupts by vector.
pub fn ways(task: &Task<'_>, key: &NodeKey, calls: &[CallSite]) -> Result<Vec<Way>, AllocError>
    ensures { IfOk result (λ all. all.items ≡ ways_of (task_of task.now) key.now calls.now) }
{
    let mut all = Vec::new(task.alloc);
    if let SpForm::Closed(_) = key.sp {
        add_calls(&mut all, key, calls)?;
        if key.i && !key.delay {
            add_vectors(&mut all, task, key)?;
        }
    }
    Ok(all)
}
