//! The law of the words on pairs: the contract of a function with an empty body.

ghost use Rattle.pair_words.specs.Laws.{FactsWords};

use line_reading::laws::word_laws;

/// The words of facts are read as these facts, and words that are read are their words.
pub fn facts_words()
    ensures { FactsWords }
{
    word_laws();
}
