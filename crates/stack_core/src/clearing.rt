//! The places at which steps may be flagged, for `clear` and `premises`.

ghost use Rattle.std.specs.Prelude.{◌≡◌, [], IfOk};
ghost use Rattle.cert_check.specs.Verdict.{IsFamilyOf};
ghost use Rattle.replies.specs.Reply.{ClearReply, PlacesReply, TextReply};
ghost use Rattle.family_edges.specs.Tasks.{task_of};
ghost use Rattle.local_rules.specs.Site.{bare};
ghost use Rattle.stack_core.specs.Clauses.{Returns};

use crate::judging::{Judged, judge_text};
use crate::reply::Reply;
use cert_format::Certificate;
use family_edges::{Task, WorkedOut};
use flash_image::{Flash, Names};
use replies::places::{self, NamedFirmware};
use replies::status::Status;
use std::alloc::{AllocError, Global};
use store_clear::{
    ClearVerdict, clear_family, flagged_places_in, flagged_sites_in, never_takes_in,
};
use vector_table::Assumptions;

// The answer by whether all nodes of an accepted certificate with this family are clear.
fn cleared(
    task: &Task<'_>,
    certificate: &Certificate,
    family: &WorkedOut,
) -> Result<Reply, AllocError>
    requires none { task.now.assumptions.now ≡ [] }
    requires family { IsFamilyOf (task_of task.now) certificate.now family.now }
    ensures { IfOk result (λ r. ClearReply task.now.flash.now certificate.now r.status r.text.items) }
{
    match clear_family(task, certificate, family)? {
        ClearVerdict::Clear => Ok(Reply {
            status: Status::Done,
            text: places::clear_text(task.alloc, certificate.bound())?,
        }),
        ClearVerdict::Unclear(node, pc) => Ok(Reply {
            status: Status::Unclear,
            text: places::unclear_text(task.alloc, task.flash, node, pc)?,
        }),
    }
}

/// The answer of `clear` on the text of a certificate. There are no assumptions.
pub fn clear(alloc: Global, flash: &Flash, text: &[u8]) -> Result<Reply, AllocError>
    ensures { Returns result (TextReply (bare flash.now) (ClearReply flash.now) text.now) }
{
    let assumptions = Assumptions::empty(alloc);
    let task = Task {
        alloc,
        flash,
        assumptions: &assumptions,
    };
    match judge_text(&task, text)? {
        Judged::Accepted(certificate, family) => cleared(&task, &certificate, &family),
        Judged::Refused(reply) => Ok(reply),
    }
}

// The words at which a step may be flagged under an accepted certificate with this family, with these names, and with causes if `why`.
fn told(
    task: &Task<'_>,
    names: &Names,
    certificate: &Certificate,
    family: &WorkedOut,
    why: bool,
) -> Result<Reply, AllocError>
    requires { IsFamilyOf (task_of task.now) certificate.now family.now }
    ensures { IfOk result (λ r. PlacesReply why names.now (task_of task.now) certificate.now r.status r.text.items) }
{
    let nevers = never_takes_in(task, &family.nodes)?;
    let firmware = NamedFirmware {
        flash: task.flash,
        names,
    };
    let bound = certificate.bound();
    if why {
        let marked = flagged_places_in(task, certificate, family)?;
        let text = places::why_text(
            task.alloc,
            &firmware,
            bound,
            marked.as_slice(),
            nevers.as_slice(),
        )?;
        Ok(Reply {
            status: Status::Done,
            text,
        })
    } else {
        let sites = flagged_sites_in(task, certificate, family)?;
        let text = places::premises_text(
            task.alloc,
            &firmware,
            bound,
            sites.as_slice(),
            nevers.as_slice(),
        )?;
        Ok(Reply {
            status: Status::Done,
            text,
        })
    }
}

/// The answer of `premises` on the text of a certificate, for a firmware with these names; with the causes at each place if `why`.
pub fn premises(task: &Task<'_>, text: &[u8], names: &Names, why: bool) -> Result<Reply, AllocError>
    ensures { Returns result (TextReply (task_of task.now) (PlacesReply why names.now (task_of task.now)) text.now) }
{
    match judge_text(task, text)? {
        Judged::Accepted(certificate, family) => told(task, names, &certificate, &family, why),
        Judged::Refused(reply) => Ok(reply),
    }
}
