//! What trials share.

ghost use Rattle.std.specs.Prelude.{◌≡◌};
ghost use Rattle.stimulus.specs.TrialLength.{most_trial_steps};

/// The most choices of a trial.
pub fn most_trial_steps() -> u32
    ensures { result ≡ most_trial_steps }
{
    200_000
}
