//! Laws of texts of peripherals and of simulated runs: contracts of functions with an empty body.

ghost use Rattle.peripherals.specs.Exact.{ReadSetupIsSpelled, SpelledSetupIsRead, RefusedSetupIsStuck, SetupsHaveOneText};
ghost use Rattle.peripherals.specs.Laws.{SimulationsAreRuns, SimulationsAreBounded};

use line_reading::laws::word_laws;

/// Reading and spelling are inverse, and a refusal has the first line with which no text continues. No text is that of two setups.
pub fn reading_is_exact()
    ensures read { ReadSetupIsSpelled }
    ensures spelled { SpelledSetupIsRead }
    ensures refused { RefusedSetupIsStuck }
    ensures one { SetupsHaveOneText }
{
    word_laws();
}

/// A simulated run is a run of the machine from reset, so it is no deeper than a bound of all runs.
pub fn simulations_are_runs()
    ensures runs { SimulationsAreRuns }
    ensures bounded { SimulationsAreBounded }
{}
