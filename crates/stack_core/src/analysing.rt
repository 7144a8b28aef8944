//! Certificates that the program makes, for `analyse` and `demo`.

ghost use Rattle.std.specs.Prelude.{◌≡◌, IfOk, None};
ghost use Rattle.certificate.specs.Claims.{IsClaim};
ghost use Rattle.certificate.specs.Valid.{IsSound};
ghost use Rattle.replies.specs.Texts.{why_not_status, why_not_text, demo_text};
ghost use Rattle.replies.specs.Reply.{Refuses, AnalyseReply, DemoReply};
ghost use Rattle.stack_core.specs.Answering.{IsWitnessedText};
ghost use Rattle.family_edges.specs.Tasks.{task_of};
ghost use Rattle.stack_core.specs.Clauses.{Returns};

use crate::reply::Reply;
use cert_check::{Judgement, judge};
use cert_writing::write;
use certificate::Certificate;
use commands::Size;
use demo_image::demo_image;
use family_edges::Task;
use fixpoint::{Refusal, solve};
use flash_image::Flash;
use replies::status::Status;
use replies::{causes, texts};
use std::alloc::{AllocError, Global};
use vector_table::Assumptions;
use witness_search::search;

// The status instead of a certificate.
fn why_not_status(refusal: &Refusal) -> Status
    ensures { result ≡ why_not_status refusal.now }
{
    match refusal {
        Refusal::Spent(_) => Status::Spent,
        _ => Status::NoCertificate,
    }
}

// The answer if there is no certificate.
fn why_not(alloc: Global, flash: &Flash, refusal: &Refusal) -> Result<Reply, AllocError>
    ensures { Returns result (Refuses (why_not_status refusal.now) (why_not_text flash.now refusal.now)) }
{
    Ok(Reply {
        status: why_not_status(refusal),
        text: causes::why_not(alloc, flash, refusal)?,
    })
}

// A certificate meets the definition of one.
fn claims(certificate: &Certificate)
    ensures { IsClaim certificate.now }
{
    let _nodes = certificate.nodes();
}

// The text of the certificate with the schedule that trials find, if they find one.
fn solved(task: &Task<'_>, certificate: Certificate) -> Result<Vec<u8>, AllocError>
    requires { IsSound (task_of task.now) certificate }
    ensures text { IfOk result (λ v. IsWitnessedText (task_of task.now) certificate v.items) }
    ensures claim { IfOk result (λ v. IsClaim certificate) }
{
    claims(&certificate);
    let found = search(task, &certificate)?;
    write(task.alloc, &certificate.with_witness(found))
}

/// The answer to an analysis. `steps` limits the number of rounds.
pub fn analyse(task: &Task<'_>, steps: Option<u64>) -> Result<Reply, AllocError>
    ensures { IfOk result (λ r. AnalyseReply (task_of task.now) steps r.status r.text.items) }
{
    match solve(task, steps) {
        Ok(certificate) => Ok(Reply {
            status: Status::Done,
            text: solved(task, certificate)?,
        }),
        Err(refusal) => why_not(task.alloc, task.flash, &refusal),
    }
}

// The answer for an image with this certificate, which is judged and accepted.
fn measured(task: &Task<'_>, size: u32, certificate: &Certificate) -> Result<Reply, AllocError>
    requires { IsSound (task_of task.now) certificate.now }
    ensures reply { IfOk result (λ r. (r.status ≡ Status.Done) × (r.text.items ≡ demo_text size certificate.now)) }
    ensures claim { IfOk result (λ r. IsClaim certificate.now) }
{
    let _nodes = certificate.nodes();
    match judge(task, certificate)? {
        Judgement::Accepted(_) => Ok(Reply {
            status: Status::Done,
            text: causes::demo_text(task.alloc, size, certificate)?,
        }),
        Judgement::Rejected(reason) => Ok(Reply {
            status: Status::Rejected,
            text: texts::rejected(task.alloc, task.flash.device(), &reason)?,
        }),
    }
}

/// The answer for the image of this size.
pub fn demo(alloc: Global, size: &Size) -> Result<Reply, AllocError>
    ensures { IfOk result (λ r. DemoReply size.now r.status r.text.items) }
{
    let flash = demo_image(alloc, size.get())?;
    let assumptions = Assumptions::empty(alloc);
    let task = Task {
        alloc,
        flash: &flash,
        assumptions: &assumptions,
    };
    match solve(&task, None) {
        Ok(certificate) => measured(&task, size.get(), &certificate),
        Err(refusal) => why_not(alloc, &flash, &refusal),
    }
}
