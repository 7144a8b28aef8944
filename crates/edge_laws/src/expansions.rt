//! Laws of expansions, each as the contract of a function with an empty body.

ghost use Rattle.edge_laws.specs.Expansions.{ExpansionsAreOne, ExpansionsAreNodes, ExpansionsFollow, FilledListsAreShown, FilledOrMissing, SuccessorsAreOne};

/// A node has at most one expansion, which is a node of the analysis if the seeds are. A node with a state has that one. A node from an
/// earlier one has an expansion exactly if that one has, with a successor of its key, and there is at most one such. If the keys of the
/// seeds ascend, so does the filled list.
pub fn expansions_are_one()
    ensures one { ExpansionsAreOne }
    ensures nodes { ExpansionsAreNodes }
    ensures follow { ExpansionsFollow }
    ensures successors { SuccessorsAreOne }
    ensures shown { FilledListsAreShown }
{}

/// Either all nodes have expansions, or there is a least one that has none.
pub fn filled_or_missing()
    ensures { FilledOrMissing }
{}
