//! The least certificate.

ghost use Rattle.std.specs.Prelude.{◌≡◌, ◌≢◌, ◌≤◌, IfOk, IfErr, None};
ghost use Rattle.certificate.specs.Claims.{Claim};
ghost use Rattle.certificate.specs.Valid.{IsValid};
ghost use Rattle.round_rules.specs.declared.refusal.Refusal.TheVariants.{Memory};
ghost use Rattle.round_rules.specs.Solutions.{IsAnswer, IsWhyNot, IsShown};
ghost use Rattle.family_edges.specs.Tasks.{task_of};

use crate::fitting::first_misfit;
use crate::ordering::found_family;
use crate::writing::certificate_of;
use certificate::Certificate;
use family_edges::Task;
use round_rules::Refusal;

/// The certificate of the least family for the firmware's device, with least ranks and needs and the root's need as bound, without a
/// schedule. It is valid, and no valid one for this firmware and these assumptions has a smaller bound. Fails with `Misfit` exactly if an
/// assumption does not fit the device, else with the refusal of the rounds, with `Spent` if they end at none of the families 0 to `steps`,
/// or if memory runs out. Without `steps`, a refusal other than running out of memory says that no certificate is valid.
pub fn solve(task: &Task<'_>, steps: Option<u64>) -> Result<Certificate, Refusal>
    ensures answer { IfOk result (λ c. IsAnswer (task_of task.now) steps c) }
    ensures valid { IfOk result (λ c. IsValid (task_of task.now) c) }
    ensures least { IfOk result (λ c. (other : Claim) → IsShown (task_of task.now) other → c.bound ≤ other.bound) }
    ensures why_not { IfErr result (λ r. IsWhyNot (task_of task.now) steps r) }
    ensures none { steps ≡ None → IfErr result (λ r. r ≢ Memory → (c : _) → IsShown (task_of task.now) c → ⊥) }
{
    if let Some(at) = first_misfit(task) {
        return Err(Refusal::Misfit(at));
    }
    let table = found_family(task, steps)?;
    let certificate = certificate_of(task, table)?;
    // reading the nodes gives the proof the definition of a certificate
    let _nodes = certificate.nodes();
    Ok(certificate)
}
