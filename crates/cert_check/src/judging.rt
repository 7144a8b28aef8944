//! The verdict on a certificate.

ghost use Rattle.std.specs.Prelude.{ℕ, ◌≡◌, ◌≤◌, ◌↔◌, Ok, IfOk, IsTrue, length};
ghost use Rattle.avr_model.specs.Assumptions.{has_pairs};
ghost use Rattle.avr_model.specs.Run.{Bounded};
ghost use Rattle.avr_model.specs.Devices.{device_of};
ghost use Rattle.edge_rules.specs.Expansion.{IsFilled};
ghost use Rattle.family_edges.specs.Exits.{AreExits};
ghost use Rattle.family_edges.specs.Expanding.{IsExpanded};
ghost use Rattle.certificate.specs.Claims.{IsClaim};
ghost use Rattle.cert_check.specs.declared.verdict.Reason as reason_type;
ghost use Rattle.cert_check.specs.Reading.{own_seeds};
ghost use Rattle.cert_check.specs.Verdict.{HasReset, IsVerdict, IsJudgement, AcceptsTheSound, RejectsForReason};
ghost use Rattle.cert_check.specs.Demands.{AreBeside, SettlesClaim};
ghost use Rattle.family_edges.specs.Tasks.{task_of};
ghost use Rattle.local_rules.specs.Site.{Task};

use crate::gathering::{LandedNodes, gather};
use crate::landing::{LandingSite, lands};
use crate::reading::read;
use crate::verdict::{Judgement, Reason};
use crate::weighing::weigh;
use avr_model::listed::Listed;
use certificate::Certificate;
use family_edges::{Expanded, Filled, Landing, Leaving, Task, WorkedOut, exits, expand};
use local_rules::Exit;
use local_rules::laws::words_have_16_bits;
use node_keys::{InstKey, NodeKey};
use std::alloc::AllocError;

// The landings of the edges of each node, or the first reason.
type Landings = Judgement<Listed<Listed<Landing>>>;

// The result if no node has a fault.
fn settle_edges(
    task: &Task<'_>,
    certificate: &Certificate,
    nodes: &Filled,
    exits: &Listed<Option<Exit>>,
) -> Result<Landings, AllocError>
    requires claim { IsClaim certificate.now }
    requires device { certificate.now.device ≡ device_of task.now.flash.now }
    requires filled { IsFilled (task_of task.now) (own_seeds (task_of task.now) certificate.now) nodes.now }
    requires reset { HasReset task.now.assumptions.now certificate.now nodes.now }
    requires taken { AreExits (task_of task.now) nodes.now exits.now }
    ensures { IfOk result (λ settled. SettlesClaim (task_of task.now) certificate.now nodes.now settled) }
{
    match gather(task, certificate, nodes, exits)? {
        Judgement::Accepted(LandedNodes { demands, landings }) => match weigh(
            task,
            certificate,
            &demands,
        ) {
            Judgement::Accepted(_) => Ok(Judgement::Accepted(landings)),
            Judgement::Rejected(reason) => {
                drop(landings);
                Ok(Judgement::Rejected(reason))
            }
        },
        Judgement::Rejected(reason) => Ok(Judgement::Rejected(reason)),
    }
}

// Whether the node at reset exists, is open, and has a state above the reset state.
fn has_reset(task: &Task<'_>, certificate: &Certificate, nodes: &Filled) -> Result<bool, AllocError>
    requires { AreBeside certificate.now.nodes nodes.now }
    ensures { IfOk result (λ there. IsTrue there ↔ HasReset task.now.assumptions.now certificate.now nodes.now) }
{
    let state = task.root()?;
    let key = NodeKey::entry(&InstKey::root());
    let site = LandingSite {
        followed: task.assumptions.has_pairs(),
        certificate,
        nodes,
    };
    Ok(lands(&site, nodes.find(&key), &key, &state))
}

// The result for the expanded nodes, by the conditions in order.
fn settle(
    task: &Task<'_>,
    certificate: &Certificate,
    nodes: &Filled,
) -> Result<Landings, AllocError>
    requires claim { IsClaim certificate.now }
    requires device { certificate.now.device ≡ device_of task.now.flash.now }
    requires filled { IsFilled (task_of task.now) (own_seeds (task_of task.now) certificate.now) nodes.now }
    ensures { IfOk result (λ settled. SettlesClaim (task_of task.now) certificate.now nodes.now settled) }
{
    if !has_reset(task, certificate, nodes)? {
        return Ok(Judgement::Rejected(Reason::Root));
    }
    match exits(task, nodes)? {
        Leaving::Fault(at, fault) => Ok(Judgement::Rejected(Reason::Node(
            at as u32,
            fault.cause(),
        ))),
        Leaving::All(exits) => settle_edges(task, certificate, nodes, &exits),
    }
}

// The judgement on the expanded nodes: they are the family if all conditions hold.
fn judge_nodes(
    task: &Task<'_>,
    certificate: &Certificate,
    nodes: Filled,
) -> Result<Judgement<WorkedOut>, AllocError>
    requires claim { IsClaim certificate.now }
    requires device { certificate.now.device ≡ device_of task.now.flash.now }
    requires filled { IsFilled (task_of task.now) (own_seeds (task_of task.now) certificate.now) nodes }
    ensures { IfOk result (λ judgement. IsJudgement (task_of task.now) certificate.now judgement) }
{
    match settle(task, certificate, &nodes) {
        Ok(Judgement::Accepted(landings)) => Ok(Judgement::Accepted(WorkedOut { nodes, landings })),
        Ok(Judgement::Rejected(reason)) => {
            drop(nodes);
            Ok(Judgement::Rejected(reason))
        }
        Err(error) => {
            drop(nodes);
            Err(error)
        }
    }
}

// The expanded nodes, read by the list of the call, or the first node without an expansion.
fn expanded(task: &Task<'_>, certificate: &Certificate) -> Result<Expanded, AllocError>
    requires claim { IsClaim certificate.now }
    requires device { certificate.now.device ≡ device_of task.now.flash.now }
    ensures { IfOk result (IsExpanded (task_of task.now) (own_seeds (task_of task.now) certificate.now)) }
{
    let followed = task.assumptions.has_pairs();
    if certificate.assumptions().has_pairs() == followed {
        return expand(task, certificate);
    }
    let reading = read(task.alloc, followed, certificate)?;
    expand(task, &reading)
}

/// Judges a certificate under assumptions, by the conditions in order. If all conditions but that on the schedule hold, the result is its
/// family of at most 65,536 nodes: the expanded nodes, which meet the conditions, and the landings of their edges. Else it is the first
/// reason, with its least numbers; a certificate for another device than the firmware's has no other. Fails if memory runs out. Each edge is
/// visited once. The local part of each node is computed twice, and once more for each node that comes from it. The nodes are copied if
/// exactly one of the list of the call and the certificate's own has the line `pairs`.
pub fn judge_family(
    task: &Task<'_>,
    certificate: &Certificate,
) -> Result<Judgement<WorkedOut>, AllocError>
    ensures exact { IfOk result (λ judgement. IsJudgement (task_of task.now) certificate.now judgement) }
    ensures few { IfOk result (λ j. (f : _) → j ≡ Judgement.Accepted f → length f.nodes ≤ 65536) }
{
    let _nodes = certificate.nodes();
    if certificate.device() != task.flash.device() {
        return Ok(Judgement::Rejected(Reason::Device));
    }
    match expanded(task, certificate)? {
        Expanded::Missing(at) => Ok(Judgement::Rejected(Reason::Expansion(at))),
        Expanded::Whole(nodes) => judge_nodes(task, certificate, nodes),
    }
}

// The verdict of a judgement.
fn verdict_of(certificate: &Certificate, judgement: Judgement<WorkedOut>) -> Judgement<u16>
    ensures { (task : _) → IsJudgement task certificate.now judgement → IsVerdict task certificate.now result }
{
    match judgement {
        Judgement::Accepted(family) => {
            drop(family);
            Judgement::Accepted(certificate.bound())
        }
        Judgement::Rejected(reason) => Judgement::Rejected(reason),
    }
}

/// The verdict on a certificate under assumptions. It accepts exactly if all conditions but that on the schedule hold, the first being that
/// the certificate is for the firmware's device. Then every run from reset stays within the certificate's bound, and meets neither an
/// undefined word nor a push outside SRAM. Else the verdict is the first reason, with its least numbers. Fails if memory runs out. Each edge
/// is visited once. The local part of each node is computed twice, and once more for each node that comes from it. The nodes are copied if
/// exactly one of the list of the call and the certificate's own has the line `pairs`.
pub fn judge(task: &Task<'_>, certificate: &Certificate) -> Result<Judgement<u16>, AllocError>
    ensures exact { IfOk result (λ verdict. IsVerdict (task_of task.now) certificate.now verdict) }
    ensures accepted { IfOk result (AcceptsTheSound (task_of task.now) certificate.now) }
    ensures bounded { (b : ℕ) → result ≡ Ok (Judgement.Accepted b) → Bounded task.now.flash.now task.now.assumptions.now b }
    ensures rejected { IfOk result (RejectsForReason (task_of task.now) certificate.now) }
{
    words_have_16_bits(task.flash.words());
    let _nodes = certificate.nodes();
    let judgement = judge_family(task, certificate)?;
    Ok(verdict_of(certificate, judgement))
}
