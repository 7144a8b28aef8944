//! First nodes of cut instances.

ghost use Rattle.std.specs.Prelude.{◌≡◌, ◌<◌, length, true, false, Some, slice_get};
ghost use Rattle.family_graph.specs.Graphs.{AreRooted};
ghost use Rattle.family_graph.specs.Numbers.{IsRooted};
ghost use Rattle.family_edges.specs.Tasks.{task_of};

use family_edges::{Filled, Task};
use node_keys::NodeKey;

// Whether the instance of the node of this number has its first node, or isn't cut.
fn is_rooted(task: &Task<'_>, nodes: &Filled, at: usize) -> bool
    requires { at < length nodes.now }
    ensures yes { result ≡ true → IsRooted (task_of task.now) nodes.now at }
    ensures no { result ≡ false → IsRooted (task_of task.now) nodes.now at → ⊥ }
{
    let inst = nodes.key(at).inst;
    match inst.cut(task.assumptions) {
        None => true,
        Some(_) => nodes.find(&NodeKey::entry(&inst)).is_some(),
    }
}

/// Whether each cut instance with a node has its first node.
pub fn are_rooted(task: &Task<'_>, nodes: &Filled) -> bool
    ensures yes { result ≡ true → AreRooted (task_of task.now) nodes.now }
    ensures no { result ≡ false → AreRooted (task_of task.now) nodes.now → ⊥ }
{
    for at in 0..nodes.count() {
        if !is_rooted(task, nodes, at) {
            return false;
        }
    }
    true
}
