//! Laws of the trials, each as the contract of a function with an empty body.

ghost use Rattle.guided_trials.specs.Laws.{TrialsAreLed};

/// The tried bytes are those that the firmware distinguishes. A trial's byte changes only at an input. Each choice is in the menu at its
/// step, and none takes a vector with a `never` line.
pub fn trials_are_led()
    ensures { TrialsAreLed }
{}
