//! Laws of the states after a test: contracts of functions with an empty body.

ghost use Rattle.pair_laws.specs.CutLaws.{FlagsAreCut, BitsAreCut, EqualsAreCut, PicksAreCut};

/// Branches on a flag: the state after it keeps each machine whose flag is so, is below the state before, and is monotone in it.
pub fn flags_are_cut()
    ensures { FlagsAreCut }
{}

/// Skips on a bit of a register: as for branches.
pub fn bits_are_cut()
    ensures { BitsAreCut }
{}

/// Skips on equal registers: as for branches; monotone if intervals lie in the hulls of their registers.
pub fn equals_are_cut()
    ensures { EqualsAreCut }
{}

/// Picks of a jump table's entry: as for branches.
pub fn picks_are_cut()
    ensures { PicksAreCut }
{}
