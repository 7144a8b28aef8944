//! The condition on a certificate's schedule.

ghost use Rattle.std.specs.Prelude.{◌↔◌, IsTrue};
ghost use Rattle.certificate.specs.Valid.{IsAttained};
ghost use Rattle.family_edges.specs.Tasks.{task_of};

use avr_model::choice::Stop;
use certificate::Certificate;
use family_edges::Task;
use witness_replay::replay;

/// Whether the certificate's schedule attains its bound: no illegal choice is reached, the run ends without a stop, and its depth is the
/// bound. A certificate without a schedule passes.
pub fn is_attained(task: &Task<'_>, certificate: &Certificate) -> bool
    ensures { IsTrue result ↔ IsAttained (task_of task.now) certificate.now.bound certificate.now.witness }
{
    let Some(schedule) = certificate.witness() else {
        return true;
    };
    match replay(task.flash, task.assumptions, schedule) {
        Ok(report) => report.stop == Stop::End && report.depth == certificate.bound(),
        Err(_) => false,
    }
}
