//! Answers on the nodes of a certificate that may flag a step.

ghost use Rattle.std.specs.Prelude.{◌≡◌, ◌↔◌, [], IfOk};
ghost use Rattle.edge_rules.specs.Expansion.{IsFilled};
ghost use Rattle.family_edges.specs.Landings.{AreLandings};
ghost use Rattle.certificate.specs.Valid.{IsSound, MeetsConditions};
ghost use Rattle.clear_laws.specs.declared.verdict.ClearVerdict.TheVariants as verdicts;
ghost use Rattle.clear_laws.specs.CertificateLaws.{IsBoundedAndClear, FlaggedRunsEndAt, FlaggedRunsEndAsTold, IsNeverFlagged};
ghost use Rattle.clear_laws.specs.Places.{ArePlaces, AllTellCauses};
ghost use Rattle.clear_laws.specs.Verdict.{AreAllClear, IsClearVerdict, AreSites, AreNevers, NamesFirstUnclear};
ghost use Rattle.family_edges.specs.Tasks.{task_of};
ghost use Rattle.local_rules.specs.Site.{bare};

use crate::causes::places_at;
use crate::listing::{ListedNodes, listed};
use crate::takes::mark_takes;
use crate::words::{first_unclear, places, sites_of};
use avr_model::device::WORDS;
use avr_model::listed::Listed;
use certificate::Certificate;
use clear_laws::{ClearVerdict, FlaggedPlace};
use family_edges::{Filled, Task, WorkedOut};
use family_graph::worked_of;
use flash_image::Flash;
use local_rules::laws::words_have_16_bits;
use std::alloc::{AllocError, Global};

/// Whether each node of a certificate's family is clear, if there are no assumptions and all conditions hold but that on the schedule. If
/// one isn't, gives the first such node, counted from 0, and its word address. If each is clear, every run from reset stays within the
/// bound, and no step of it is flagged: there is no premise on flags. Fails if memory runs out. No edge is computed: each landing is
/// visited once, and once more for each slot that a condition names. Source: own.
pub fn clear_family(
    task: &Task<'_>,
    certificate: &Certificate,
    family: &WorkedOut,
) -> Result<ClearVerdict, AllocError>
    requires none { task.now.assumptions.now ≡ [] }
    requires filled { IsFilled (task_of task.now) certificate.now.nodes family.now.nodes }
    requires meets { MeetsConditions (task_of task.now) certificate.now family.now.nodes }
    requires landings { AreLandings (task_of task.now) family.now.nodes family.now.landings }
    ensures exact { IfOk result (λ verdict. IsClearVerdict task.now.flash.now certificate.now verdict) }
    ensures clear { IfOk result (λ v. (v ≡ verdicts.Clear) ↔ AreAllClear (bare task.now.flash.now) certificate.now) }
    ensures unclear { IfOk result (NamesFirstUnclear task.now.flash.now certificate.now) }
    ensures never_flagged { IfOk result (λ v. v ≡ verdicts.Clear → IsBoundedAndClear task.now.flash.now certificate.now.bound) }
{
    words_have_16_bits(task.flash.words());
    let _nodes = certificate.nodes();
    let conditions = listed(task, certificate, family)?;
    match first_unclear(&conditions) {
        None => Ok(ClearVerdict::Clear),
        Some(at) => Ok(ClearVerdict::Unclear(at as u32, family.nodes.key(at).pc)),
    }
}

/// The word addresses at which a step may be flagged, ascending and without repeats: those of nodes of a certificate's family that aren't
/// clear, if all conditions hold but that on the schedule. Every run from reset that ends flagged ends at one of them, or by taking a
/// vector that is assumed never to be taken; without either, no run is flagged. Fails if memory runs out. No edge is computed: each
/// landing is visited once, and once more for each slot that a condition names. Source: own.
pub fn flagged_sites_in(
    task: &Task<'_>,
    certificate: &Certificate,
    family: &WorkedOut,
) -> Result<Listed<u32>, AllocError>
    requires filled { IsFilled (task_of task.now) certificate.now.nodes family.now.nodes }
    requires meets { MeetsConditions (task_of task.now) certificate.now family.now.nodes }
    requires landings { AreLandings (task_of task.now) family.now.nodes family.now.landings }
    ensures exact { IfOk result (λ sites. AreSites (task_of task.now) certificate.now sites) }
    ensures told { IfOk result (FlaggedRunsEndAt (task_of task.now) certificate.now) }
    ensures clear { IfOk result (λ sites. (sites ≡ []) ↔ AreAllClear (task_of task.now) certificate.now) }
    ensures never_flagged { IfOk result (λ sites. sites ≡ [] → IsNeverFlagged (task_of task.now) certificate.now) }
{
    words_have_16_bits(task.flash.words());
    let _nodes = certificate.nodes();
    let conditions = listed(task, certificate, family)?;
    let told = ListedNodes {
        nodes: &family.nodes,
        conditions: conditions.as_slice(),
    };
    sites_of(task.alloc, &told)
}

/// The same word addresses, each with what may happen there by some node that isn't clear: which protected addresses a store may write that
/// are flagged, whether one may write a byte that was pushed, whether a transfer may go to an unlisted word or be too deep for its line,
/// whether 1 may be written to a moving bit; and something may happen at each. What a run from reset is flagged for is told of the word at which
/// it ends, unless it takes a vector that is assumed never to be taken. The error is want of memory. Beside what the words cost, each node
/// is looked at once, and twice more if it isn't clear. Source: own.
pub fn flagged_places_in(
    task: &Task<'_>,
    certificate: &Certificate,
    family: &WorkedOut,
) -> Result<Listed<FlaggedPlace>, AllocError>
    requires filled { IsFilled (task_of task.now) certificate.now.nodes family.now.nodes }
    requires meets { MeetsConditions (task_of task.now) certificate.now family.now.nodes }
    requires landings { AreLandings (task_of task.now) family.now.nodes family.now.landings }
    ensures exact { IfOk result (λ list. ArePlaces (task_of task.now) certificate.now list) }
    ensures told { IfOk result (FlaggedRunsEndAsTold (task_of task.now) certificate.now) }
    ensures causes { IfOk result (λ list. AllTellCauses list) }
{
    words_have_16_bits(task.flash.words());
    let _nodes = certificate.nodes();
    let conditions = listed(task, certificate, family)?;
    let told = ListedNodes {
        nodes: &family.nodes,
        conditions: conditions.as_slice(),
    };
    let sites = sites_of(task.alloc, &told)?;
    places_at(task, certificate, &told, sites.as_slice())
}

/// The word addresses of vectors that are assumed never to be taken and that some of these nodes may take, ascending and without repeats,
/// for whichever certificate has these nodes. Taking such a vector is flagged. Fails if memory runs out. Source: own.
pub fn never_takes_in(task: &Task<'_>, nodes: &Filled) -> Result<Listed<u32>, AllocError>
    ensures exact { IfOk result (λ l. (c : _) → IsFilled (task_of task.now) c.nodes nodes.now → AreNevers (task_of task.now) c l) }
{
    let mut marks = vec![in task.alloc; false; WORDS as usize]?;
    mark_takes(task, nodes, marks.as_mut_slice());
    places(task.alloc, &marks)
}

/// Whether each node of a certificate without assumptions is clear, if all conditions hold but that on its schedule. If one isn't, gives
/// the first such node, counted from 0, and its word address. If each is clear, every run from reset stays within the bound, and no step
/// of it is flagged: there is no premise on flags. Fails if memory runs out. Each edge is visited once, and once more for each slot that
/// a condition names. Source: own.
pub fn clear_sites(
    alloc: Global,
    flash: &Flash,
    certificate: &Certificate,
) -> Result<ClearVerdict, AllocError>
    requires { IsSound (bare flash.now) certificate.now }
    ensures exact { IfOk result (λ verdict. IsClearVerdict flash.now certificate.now verdict) }
    ensures clear { IfOk result (λ v. (v ≡ verdicts.Clear) ↔ AreAllClear (bare flash.now) certificate.now) }
    ensures unclear { IfOk result (NamesFirstUnclear flash.now certificate.now) }
    ensures never_flagged { IfOk result (λ v. v ≡ verdicts.Clear → IsBoundedAndClear flash.now certificate.now.bound) }
{
    let task = Task {
        alloc,
        flash,
        assumptions: certificate.assumptions(),
    };
    let family = worked_of(&task, certificate)?;
    let verdict = clear_family(&task, certificate, &family);
    drop(family);
    verdict
}

/// The word addresses at which a step may be flagged, ascending and without repeats: those of nodes of a certificate that aren't clear
/// under these assumptions, if all conditions hold but that on its schedule. Every run from reset that ends flagged ends at one of them,
/// or by taking a vector that is assumed never to be taken; without either, no run is flagged. Fails if memory runs out. Each edge is
/// visited once, and once more for each slot that a condition names. Source: own.
pub fn flagged_sites(task: &Task<'_>, certificate: &Certificate) -> Result<Listed<u32>, AllocError>
    requires { IsSound (task_of task.now) certificate.now }
    ensures exact { IfOk result (λ sites. AreSites (task_of task.now) certificate.now sites) }
    ensures told { IfOk result (FlaggedRunsEndAt (task_of task.now) certificate.now) }
    ensures clear { IfOk result (λ sites. (sites ≡ []) ↔ AreAllClear (task_of task.now) certificate.now) }
    ensures never_flagged { IfOk result (λ sites. sites ≡ [] → IsNeverFlagged (task_of task.now) certificate.now) }
{
    let family = worked_of(task, certificate)?;
    let sites = flagged_sites_in(task, certificate, &family);
    drop(family);
    sites
}

/// The same word addresses, each with what may happen there by some node that isn't clear: which protected addresses a store may write that
/// are flagged, whether one may write a byte that was pushed, whether a transfer may go to an unlisted word or be too deep for its line,
/// whether 1 may be written to a moving bit; and something may happen at each. What a run from reset is flagged for is told of the word at which
/// it ends, unless it takes a vector that is assumed never to be taken. The error is want of memory. Beside what the words cost, each node
/// is looked at once, and twice more if it isn't clear. Source: own.
pub fn flagged_places(
    task: &Task<'_>,
    certificate: &Certificate,
) -> Result<Listed<FlaggedPlace>, AllocError>
    requires { IsSound (task_of task.now) certificate.now }
    ensures exact { IfOk result (λ list. ArePlaces (task_of task.now) certificate.now list) }
    ensures told { IfOk result (FlaggedRunsEndAsTold (task_of task.now) certificate.now) }
    ensures causes { IfOk result (λ list. AllTellCauses list) }
{
    let family = worked_of(task, certificate)?;
    let list = flagged_places_in(task, certificate, &family);
    drop(family);
    list
}

/// The word addresses of vectors that are assumed never to be taken and that some node of a certificate may take, ascending and without
/// repeats, if all conditions hold but that on its schedule. Taking such a vector is flagged. Fails if memory runs out. Source: own.
pub fn never_takes(task: &Task<'_>, certificate: &Certificate) -> Result<Listed<u32>, AllocError>
    requires { IsSound (task_of task.now) certificate.now }
    ensures exact { IfOk result (λ nevers. AreNevers (task_of task.now) certificate.now nevers) }
{
    let family = worked_of(task, certificate)?;
    let nevers = never_takes_in(task, &family.nodes);
    drop(family);
    nevers
}
