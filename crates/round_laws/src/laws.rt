//! Laws of the rounds, each as the contract of a function with an empty body.

ghost use Rattle.round_laws.specs.Closed.{ClosedFamiliesEndRounds};
ghost use Rattle.round_laws.specs.Graphs.{GraphsTell};
ghost use Rattle.round_laws.specs.Laws.{FamiliesAreTheirNodes, RoundsAreJoins, RoundsAreLeast, RoundsEndOnce, SolutionsAreValid};
ghost use Rattle.round_laws.specs.Reached.{RoundsAreReached};

/// The family of each round is unique. It is below that of each valid certificate, and if one exists no test holds on it.
pub fn rounds_are_least()
    ensures { RoundsAreLeast }
{}

/// The rounds end once: with one family, or with one refusal. If a family is built from the first one by targets of its own edges, in any
/// order, is closed, and no test holds on it, the rounds end there.
pub fn rounds_end_once()
    ensures once { RoundsEndOnce }
    ensures closed { ClosedFamiliesEndRounds }
{}

/// The certificate of a solved family is valid, and no valid one has a smaller bound.
pub fn solutions_are_valid()
    ensures { SolutionsAreValid }
{}

/// A family is determined by its nodes, and joining nodes one after the other gives the next family.
pub fn rounds_are_joins()
    ensures nodes { FamiliesAreTheirNodes }
    ensures joins { RoundsAreJoins }
{}

/// The graph has the cycles of the family, and its least ranks and needs are the family's.
pub fn graphs_tell()
    ensures { GraphsTell }
{}

/// A property of keys that the node at reset has, and that the edges of all families of the rounds preserve, holds of all their nodes.
pub fn rounds_are_reached()
    ensures { RoundsAreReached }
{}
