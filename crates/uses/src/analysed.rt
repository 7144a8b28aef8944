//! Shows `fixpoint`.

ghost use Rattle.std.specs.Prelude.{◌≤◌, IfOk};
ghost use Rattle.avr_model.specs.Run.{Bounded};
ghost use Rattle.certificate.specs.Claims.{Claim};
ghost use Rattle.round_rules.specs.Solutions.{IsShown};
ghost use Rattle.family_edges.specs.Tasks.{task_of};

use cert_check::laws::sound_certificates_bound_every_run;
use family_edges::Task;
use fixpoint::{Refusal, solve};
use local_rules::laws::words_have_16_bits;

/// The worst-case stack usage of a firmware under assumptions: every run keeps it, and no certificate that meets the checker's conditions
/// has less.
pub fn worst_case(task: &Task<'_>) -> Result<u16, Refusal>
    ensures bounded { IfOk result (λ bound. Bounded task.now.flash.now task.now.assumptions.now bound) }
    ensures least { IfOk result (λ bound. (other : Claim) → IsShown (task_of task.now) other → bound ≤ other.bound) }
{
    sound_certificates_bound_every_run();
    words_have_16_bits(task.flash.words());
    let certificate = solve(task, None)?;
    let _nodes = certificate.nodes();
    Ok(certificate.bound())
}
