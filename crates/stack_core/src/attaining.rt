//! Certificates that are written with a schedule, for `attain`.

ghost use Rattle.std.specs.Prelude.{IfOk};
ghost use Rattle.certificate.specs.Valid.{IsValid};
ghost use Rattle.replies.specs.Reply.{AttainReply, TextReply};
ghost use Rattle.family_edges.specs.Tasks.{task_of};
ghost use Rattle.stack_core.specs.Clauses.{Returns};

use crate::judging::{Judged, judge_text};
use crate::reply::Reply;
use cert_check::laws::sound_certificates_bound_every_run;
use cert_format::Certificate;
use cert_writing::write;
use family_edges::Task;
use local_rules::laws::words_have_16_bits;
use replies::status::Status;
use std::alloc::AllocError;

// The text of an accepted certificate, with the schedule that guided trials find if it has none.
fn completed(task: &Task<'_>, certificate: Certificate, trials: u32) -> Result<Vec<u8>, AllocError>
    requires { IsValid (task_of task.now) certificate }
    ensures { IfOk result (λ v. AttainReply (task_of task.now) trials certificate Status.Done v.items) }
{
    sound_certificates_bound_every_run();
    words_have_16_bits(task.flash.words());
    let _nodes = certificate.nodes();
    let Ok(whole) = guided_trials::attain(
        task.alloc,
        task.flash,
        task.assumptions,
        certificate,
        trials,
    ) else {
        // one for another device isn't accepted: memory has run out
        return Err(AllocError);
    };
    write(task.alloc, &whole)
}

/// The answer of `attain` on the text of a certificate. Not inlined: the machine of a trial, 33 KiB of stack, would stay in the frame of all
/// commands.
#[inline(never)]
pub fn attain(task: &Task<'_>, text: &[u8], trials: u32) -> Result<Reply, AllocError>
    ensures { Returns result (TextReply (task_of task.now) (AttainReply (task_of task.now) trials) text.now) }
{
    match judge_text(task, text)? {
        Judged::Accepted(certificate, family) => {
            drop(family);
            Ok(Reply {
                status: Status::Done,
                text: completed(task, certificate, trials)?,
            })
        }
        Judged::Refused(reply) => Ok(reply),
    }
}
