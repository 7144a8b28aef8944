//! The words of vectors that are assumed never to be taken, and that some node may take.

ghost use Rattle.std.specs.Prelude.{◌≡◌, ◌≤◌, length};
ghost use Rattle.avr_model.specs.Devices.{device_of};
ghost use Rattle.avr_model.specs.Image.{WORDS};
ghost use Rattle.avr_model.specs.Vectors.{last_vector};
ghost use Rattle.store_clear.specs.Takes.{AreMarkedBeside, is_take, may_take, IsTakenAt, IsTakenAtAll};
ghost use Rattle.family_edges.specs.Tasks.{task_of};

use family_edges::{Filled, Task};
use node_keys::NodeKey;

// Whether the vector is enabled, and its word has a `never` line.
fn is_take(task: &Task<'_>, key: &NodeKey, v: u8) -> bool
    requires low { 2 ≤ v }
    requires high { v ≤ last_vector (device_of task.now.flash.now) }
    ensures { result ≡ is_take (task_of task.now) key.now v }
{
    let device = task.flash.device();
    key.masks.has(device, v) && task.assumptions.never(device.vector_word(v))
}

// Marks the words of all such vectors.
fn mark_vectors(task: &Task<'_>, key: &NodeKey, marks: &mut [bool])
    requires { length marks.old ≡ WORDS }
    ensures { AreMarkedBeside (IsTakenAtAll (task_of task.now) key.now) marks.old marks.new }
{
    let device = task.flash.device();
    for n in 0..device.last_vector() - 1 {
        if is_take(task, key, n + 2) {
            marks[device.vector_word(n + 2) as usize] = true;
        }
    }
}

// Whether an interrupt may be taken.
fn may_take(key: &NodeKey) -> bool
    ensures { result ≡ may_take key.now }
{
    key.i && !key.delay
}

// Marks the words with a `never` line of the vectors that a node may take.
pub(crate) fn mark_takes(task: &Task<'_>, nodes: &Filled, marks: &mut [bool])
    requires { length marks.old ≡ WORDS }
    ensures { AreMarkedBeside (IsTakenAt (task_of task.now) nodes.now (length nodes.now)) marks.old marks.new }
{
    for at in 0..nodes.count() {
        let key = nodes.key(at);
        if may_take(key) {
            mark_vectors(task, key, marks);
        }
    }
}
