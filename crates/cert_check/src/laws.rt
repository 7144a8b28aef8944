//! Laws of the definitions, each as the contract of a function with an empty body.

ghost use Rattle.cert_check.specs.Laws.{SoundCertificatesBoundEveryRun, ValidWhereAcceptedAndAttained, VerdictsAreOne};

use certificate::laws::conditions_make_families_sound;
use frame_laws::laws::sound_families_bound_every_run;

/// A certificate has at most one verdict.
pub fn verdicts_are_one()
    ensures { VerdictsAreOne }
{}

/// If all conditions but that on the schedule hold, every run from reset stays within the bound.
pub fn sound_certificates_bound_every_run()
    ensures { SoundCertificatesBoundEveryRun }
{
    conditions_make_families_sound();
    sound_families_bound_every_run();
}

/// A certificate is valid exactly if the verdict accepts it and its schedule, if it has one, attains its bound.
pub fn valid_where_accepted_and_attained()
    ensures { ValidWhereAcceptedAndAttained }
{}
