//! The family of a certificate.

ghost use Rattle.std.specs.Prelude.{◌≤◌, IfOk, length};
ghost use Rattle.edge_rules.specs.Expansion.{IsFilled};
ghost use Rattle.family_edges.specs.Landings.{AreLandings};
ghost use Rattle.certificate.specs.Valid.{IsSound, MeetsConditions};
ghost use Rattle.family_edges.specs.Tasks.{task_of};

use certificate::Certificate;
use certificate::laws::claims_are_seeds;
use edge_laws::expansions::filled_or_missing;
use family_edges::{Expanded, Task, WorkedOut, expand};
use std::alloc::AllocError;

/// The family of a certificate, at most 65,536 nodes, if all conditions hold except the one on its schedule: its nodes with their states,
/// and where their edges land. The local part of a node is computed twice, and once more for each node that comes from it.
pub fn worked_of(task: &Task<'_>, certificate: &Certificate) -> Result<WorkedOut, AllocError>
    requires { IsSound (task_of task.now) certificate.now }
    ensures filled { IfOk result (λ family. IsFilled (task_of task.now) certificate.now.nodes family.nodes) }
    ensures few { IfOk result (λ family. length family.nodes ≤ 65536) }
    ensures meets { IfOk result (λ family. MeetsConditions (task_of task.now) certificate.now family.nodes) }
    ensures landings { IfOk result (λ family. AreLandings (task_of task.now) family.nodes family.landings) }
{
    claims_are_seeds();
    filled_or_missing();
    let _nodes = certificate.nodes();
    match expand(task, certificate)? {
        Expanded::Whole(nodes) => WorkedOut::of(task, nodes),
        Expanded::Missing(_) => unreachable!(),
    }
}
