//! Laws of the certificates of solved families, each as the contract of a function with an empty body.

ghost use Rattle.round_solutions.specs.Answers.{AnswersAreOne};
ghost use Rattle.round_solutions.specs.Closed.{ClosedFamiliesAreSolved};
ghost use Rattle.round_solutions.specs.Laws.{GraphsAreAcyclic, LoneEdgesTell, SolutionsAreMade, SolvedFamiliesAreShown};

/// A solved family has a numbering and a graph without cycles. The parts of its certificate form a certificate, which is the one of this
/// family.
pub fn solved_families_are_shown()
    ensures shown { SolvedFamiliesAreShown }
    ensures acyclic { GraphsAreAcyclic }
    ensures made { SolutionsAreMade }
{}

/// A node has at most one local edge to a key. In a solved family, the only edge to a node determines its state, so the state can be left
/// out.
pub fn lone_edges_tell()
    ensures { LoneEdgesTell }
{}

/// A solved family has one certificate. A firmware under assumptions and a budget has one certificate, or one cause for having none.
pub fn answers_are_one()
    ensures { AnswersAreOne }
{}

/// A family is solved if it is built from the first one by targets of its own edges, in any order, is closed, and no test holds on it.
pub fn closed_families_are_solved()
    ensures { ClosedFamiliesAreSolved }
{}
