//! Entries of nodes into instances.

ghost use Rattle.std.specs.Prelude.{◌≡◌, ◌++◌, ◌<◌, Contains, length, IfOk, OnOk};
ghost use Rattle.family_edges.specs.declared.landing.Landing as landing_type;
ghost use Rattle.family_edges.specs.Landings.{AreLandings};
ghost use Rattle.family_graph.specs.Graphs.{AreWays, IsPeopled};
ghost use Rattle.family_graph.specs.Numbers.{way_of, ways_by};
ghost use Rattle.family_edges.specs.Tasks.{task_of};

use avr_model::listed::Listed;
use edge_rules::edge::is_entry;
use family_edges::{Filled, Landing, Task, WorkedOut};
use node_keys::{EdgeKind, InstKey};
use std::alloc::{AllocError, Global};

/// An entry into an instance.
#[derive(Clone, Copy)]
pub struct Entering {
    /// By a call or an interrupt.
    pub kind: EdgeKind,
    /// The instance.
    pub inst: InstKey,
}

// The entry of an edge with this landing, if it enters an instance.
fn add_way(ways: &mut Listed<Entering>, nodes: &Filled, landing: &Landing) -> Result<(), AllocError>
    requires { landing.now.at < length nodes.now }
    ensures { OnOk result (ways.new ≡ ways.old ++ way_of nodes.now landing.now) }
{
    if is_entry(landing.kind) {
        ways.push(Entering {
            kind: landing.kind,
            inst: nodes.key(landing.at as usize).inst,
        })?;
    }
    Ok(())
}

// The entries of edges with these landings.
fn ways_of(
    alloc: Global,
    nodes: &Filled,
    landings: &[Landing],
) -> Result<Listed<Entering>, AllocError>
    requires { (l : landing_type.Landing) → Contains landings.now l → l.at < length nodes.now }
    ensures { IfOk result (λ ways. ways ≡ ways_by nodes.now landings.now) }
{
    let mut ways = Listed::empty(alloc);
    for landing in landings {
        add_way(&mut ways, nodes, landing)?;
    }
    Ok(ways)
}

/// The entries of each node of a family, by its number. Each instance that one of them enters has its first node.
pub fn entered_by(
    task: &Task<'_>,
    family: &WorkedOut,
) -> Result<Listed<Listed<Entering>>, AllocError>
    requires landings { AreLandings (task_of task.now) family.now.nodes family.now.landings }
    requires peopled { IsPeopled (task_of task.now) family.now.nodes }
    ensures { IfOk result (AreWays (task_of task.now) family.now.nodes) }
{
    let mut all = Listed::empty(task.alloc);
    let landings = family.landings.as_slice();
    for at in 0..landings.len() {
        let ways = ways_of(task.alloc, &family.nodes, landings[at].as_slice())?;
        all.push(ways)?;
    }
    Ok(all)
}
