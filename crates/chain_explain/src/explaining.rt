//! The explanation of a certificate.

ghost use Rattle.std.specs.Prelude.{◌≡◌, ◌≤◌, IfOk};
ghost use Rattle.edge_rules.specs.Expansion.{IsFilled};
ghost use Rattle.family_edges.specs.Landings.{AreLandings};
ghost use Rattle.certificate.specs.Claims.{IsClaim};
ghost use Rattle.certificate.specs.Valid.{IsSound, MeetsConditions};
ghost use Rattle.chain_explain.specs.Explanation.{IsExplanation};
ghost use Rattle.chain_explain.specs.Told.{sum_of, Nest, IsOfRounds};
ghost use Rattle.family_edges.specs.Tasks.{task_of};

use crate::explanation::Explanation;
use crate::parts::parts;
use crate::reaching::{kept, kept_ways, marks_of};
use certificate::Certificate;
use edge_laws::expansions::filled_or_missing;
use family_edges::{Task, WorkedOut};
use family_graph::{deepest_chain, worked_of};
use round_laws::laws::rounds_are_reached;
use std::alloc::AllocError;

/// Explains the bound of a certificate from its family, which meets the conditions: the deepest chain over the nodes reached from reset,
/// each link with the bytes that it adds and a shortest path to its point. The bytes add up to the root's least need over these nodes,
/// which is at most the bound; it is the bound if the rounds end with this certificate. Time is linear in nodes and edges, apart from
/// look-ups of nodes by key. Source: own.
pub fn explain_family(
    task: &Task<'_>,
    certificate: &Certificate,
    family: &WorkedOut,
) -> Result<Explanation, AllocError>
    requires claim { IsClaim certificate.now }
    requires filled { IsFilled (task_of task.now) certificate.now.nodes family.now.nodes }
    requires meets { MeetsConditions (task_of task.now) certificate.now family.now.nodes }
    requires landings { AreLandings (task_of task.now) family.now.nodes family.now.landings }
    ensures exact { IfOk result (IsExplanation (task_of task.now) certificate.now) }
    ensures sums { IfOk result (λ x. sum_of x.parts ≡ x.least) }
    ensures bounded { IfOk result (λ x. x.least ≤ certificate.now.bound) }
    ensures least { IfOk result (λ x. IsOfRounds (task_of task.now) certificate.now → x.least ≡ certificate.now.bound) }
    ensures nests { IfOk result (λ x. Nest (task_of task.now) certificate.now x.parts) }
{
    filled_or_missing();
    rounds_are_reached();
    let marks = marks_of(task, family)?;
    let reached = kept(task.alloc, &family.nodes, &marks)?;
    let ways = kept_ways(task, family, &marks)?;
    let deepest = deepest_chain(task, certificate, &reached, &ways)?;
    let parts = parts(task, family, &reached, deepest.links.as_slice())?;
    Ok(Explanation {
        least: deepest.need as u16,
        parts,
    })
}

/// Explains a certificate whose conditions hold except the one on its schedule. Computes its family first.
pub fn explain(task: &Task<'_>, certificate: &Certificate) -> Result<Explanation, AllocError>
    requires { IsSound (task_of task.now) certificate.now }
    ensures exact { IfOk result (IsExplanation (task_of task.now) certificate.now) }
    ensures sums { IfOk result (λ x. sum_of x.parts ≡ x.least) }
    ensures bounded { IfOk result (λ x. x.least ≤ certificate.now.bound) }
    ensures least { IfOk result (λ x. IsOfRounds (task_of task.now) certificate.now → x.least ≡ certificate.now.bound) }
    ensures nests { IfOk result (λ x. Nest (task_of task.now) certificate.now x.parts) }
{
    let _nodes = certificate.nodes();
    let family = worked_of(task, certificate)?;
    explain_family(task, certificate, &family)
}
