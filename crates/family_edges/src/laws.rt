//! Laws of answers, as the contract of a function with an empty body.

ghost use Rattle.family_edges.specs.Laws.{AnswersAreExact, ExitsAreExact, LocalPartsAreEdges};

/// An expansion answers with all states exactly if each node has one, else with the first node without one; the answer is unique. Exits
/// are given exactly if no node has a fault, else the first fault; the answer is unique. The local part of a node agrees with its edges:
/// it exists exactly if the node has no fault, and has the same successors, exit, and calls.
pub fn answers_are_exact()
    ensures states { AnswersAreExact }
    ensures exits { ExitsAreExact }
    ensures edges { LocalPartsAreEdges }
{}
