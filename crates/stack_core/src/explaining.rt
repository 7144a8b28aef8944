//! The origin of the bytes of a bound, for `explain`.

ghost use Rattle.std.specs.Prelude.{IfOk};
ghost use Rattle.cert_check.specs.Verdict.{IsFamilyOf};
ghost use Rattle.replies.specs.Reply.{ExplainReply, TextReply};
ghost use Rattle.family_edges.specs.Tasks.{task_of};
ghost use Rattle.stack_core.specs.Clauses.{Returns};

use crate::judging::{Judged, judge_text};
use crate::reply::Reply;
use cert_format::Certificate;
use chain_explain::explain_family;
use family_edges::{Task, WorkedOut};
use flash_image::Names;
use replies::status::Status;
use reports::explanation_text;
use std::alloc::AllocError;

// The explanation of an accepted certificate with this family, with these names.
fn explained(
    task: &Task<'_>,
    names: &Names,
    certificate: &Certificate,
    family: &WorkedOut,
) -> Result<Reply, AllocError>
    requires { IsFamilyOf (task_of task.now) certificate.now family.now }
    ensures { IfOk result (λ r. ExplainReply names.now (task_of task.now) certificate.now r.status r.text.items) }
{
    let _nodes = certificate.nodes();
    let explanation = explain_family(task, certificate, family)?;
    Ok(Reply {
        status: Status::Done,
        text: explanation_text(
            task.alloc,
            task.flash.device(),
            certificate.bound(),
            names,
            &explanation,
        )?,
    })
}

/// The answer of `explain` on the text of a certificate, for a firmware with these names.
pub fn explain(task: &Task<'_>, text: &[u8], names: &Names) -> Result<Reply, AllocError>
    ensures { Returns result (TextReply (task_of task.now) (ExplainReply names.now (task_of task.now)) text.now) }
{
    match judge_text(task, text)? {
        Judged::Accepted(certificate, family) => explained(task, names, &certificate, &family),
        Judged::Refused(reply) => Ok(reply),
    }
}
