//! Shows `cert_check`.

ghost use Rattle.std.specs.Prelude.{IfOk, IfSome};
ghost use Rattle.avr_model.specs.Run.{Bounded};

use cert_check::{Judgement, judge};
use certificate::Certificate;
use family_edges::Task;
use std::alloc::AllocError;

/// The bound of a certificate, which every run of the firmware keeps. `None` if the checker rejects it.
pub fn bound_of(task: &Task<'_>, certificate: &Certificate) -> Result<Option<u16>, AllocError>
    ensures { IfOk result (λ o. IfSome o (λ bound. Bounded task.now.flash.now task.now.assumptions.now bound)) }
{
    match judge(task, certificate) {
        Ok(Judgement::Accepted(bound)) => Ok(Some(bound)),
        Ok(Judgement::Rejected(_)) => Ok(None),
        Err(fault) => Err(fault),
    }
}
