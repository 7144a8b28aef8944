//! Ranges of values by their types, as the contract of a function with an empty body.

ghost use Rattle.local_rules.specs.Machine.{HaveSixteenBits};

/// The words of a flash have 16 bits, by their type.
pub fn words_have_16_bits(words: &[u16])
    ensures { HaveSixteenBits words.now }
{}
