//! Laws of the definitions.

ghost use Rattle.stack_core.specs.Answer.{WrittenAnswersHold};

/// If the files report what they hold: a command that accepts a certificate says that the bound holds of the held bytes, and if these are
/// well-formed it accepts exactly if the certificate is valid. An analysis that answers 0 has written their least certificate, and its
/// status says how the rounds end. A simulation that answers 0 has reported the run that the peripherals choose, which stays within each
/// accepted bound.
pub fn written_answers_hold()
    ensures { WrittenAnswersHold }
{}
