//! Judging certificates, for all commands that do.

ghost use Rattle.std.specs.Prelude.{IfOk, Ok};
ghost use Rattle.std.specs.Option.{is_some};
ghost use Rattle.cert_format.specs.Reading.{certificate_in};
ghost use Rattle.replies.specs.Texts.{accepted};
ghost use Rattle.replies.specs.Reply.{TextReply, CheckReply, ReportReply};
ghost use Rattle.stack_core.specs.Answering.{IsJudgedAs};
ghost use Rattle.family_edges.specs.Tasks.{task_of};
ghost use Rattle.stack_core.specs.Clauses.{Returns};

use crate::reply::Reply;
use cert_check::{Judgement, is_attained, judge_family};
use cert_format::{Certificate, read as read_certificate};
use elf_load::Loaded;
use family_edges::{Task, WorkedOut};
use flash_image::Device;
use replies::status::Status;
use replies::texts;
use reports::{report_json, report_text};
use std::alloc::{AllocError, Global};

/// An accepted certificate with its family, or the answer to one that isn't accepted.
#[derive(Drop)]
pub enum Judged {
    Accepted(Certificate, WorkedOut),
    Refused(Reply),
}

// The answer to an accepted certificate.
#[tactic(auto, using(crate::proofs::Replies::copied_is_some))]
fn checked(alloc: Global, certificate: &Certificate) -> Result<Reply, AllocError>
    ensures { Returns result (CheckReply certificate.now) }
{
    let attained = certificate.witness().is_some();
    Ok(Reply {
        status: Status::Done,
        text: texts::accepted(alloc, certificate.bound(), attained)?,
    })
}

// The answer with a report, in lines or as JSON.
fn reported(
    alloc: Global,
    certificate: &Certificate,
    device: Device,
    loaded: &Loaded,
    json: bool,
) -> Result<Reply, AllocError>
    ensures { Returns result (ReportReply json device loaded.now certificate.now) }
{
    let text = if json {
        report_json(alloc, device, certificate, &loaded.names, loaded.static_end)?
    } else {
        report_text(alloc, device, certificate, &loaded.names, loaded.static_end)?
    };
    Ok(Reply {
        status: Status::Done,
        text,
    })
}

// Judges a certificate that was read.
fn judge_claim(task: &Task<'_>, certificate: Certificate) -> Result<Judged, AllocError>
    ensures { IfOk result (λ j. IsJudgedAs (task_of task.now) (Ok certificate) j) }
{
    match judge_family(task, &certificate) {
        Ok(Judgement::Accepted(family)) => {
            if is_attained(task, &certificate) {
                return Ok(Judged::Accepted(certificate, family));
            }
            drop(certificate);
            drop(family);
            Ok(Judged::Refused(Reply {
                status: Status::Rejected,
                text: texts::witness_rejected(task.alloc)?,
            }))
        }
        Ok(Judgement::Rejected(reason)) => {
            drop(certificate);
            Ok(Judged::Refused(Reply {
                status: Status::Rejected,
                text: texts::rejected(task.alloc, task.flash.device(), &reason)?,
            }))
        }
        Err(fault) => {
            drop(certificate);
            Err(fault)
        }
    }
}

/// Reads and judges the certificate of a text.
pub fn judge_text(task: &Task<'_>, text: &[u8]) -> Result<Judged, AllocError>
    ensures { IfOk result (λ j. IsJudgedAs (task_of task.now) (certificate_in task.now.flash.now.device text.now) j) }
{
    match read_certificate(task.alloc, task.flash.device(), text) {
        Ok(certificate) => judge_claim(task, certificate),
        Err(fault) => Ok(Judged::Refused(Reply {
            status: Status::BadCertificate,
            text: texts::certificate_refused(task.alloc, &fault)?,
        })),
    }
}

/// The answer of `check` on the text of a certificate.
pub fn check(task: &Task<'_>, text: &[u8]) -> Result<Reply, AllocError>
    ensures { Returns result (TextReply (task_of task.now) CheckReply text.now) }
{
    match judge_text(task, text)? {
        Judged::Accepted(certificate, family) => {
            drop(family);
            checked(task.alloc, &certificate)
        }
        Judged::Refused(reply) => Ok(reply),
    }
}

/// The answer of `report` on the text of a certificate, for a firmware that was loaded for this device.
pub fn report(
    task: &Task<'_>,
    text: &[u8],
    device: Device,
    loaded: &Loaded,
    json: bool,
) -> Result<Reply, AllocError>
    ensures { Returns result (TextReply (task_of task.now) (ReportReply json device loaded.now) text.now) }
{
    match judge_text(task, text)? {
        Judged::Accepted(certificate, family) => {
            drop(family);
            reported(task.alloc, &certificate, device, loaded, json)
        }
        Judged::Refused(reply) => Ok(reply),
    }
}
