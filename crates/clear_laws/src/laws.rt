//! Laws of flagged steps and of clear certificates, each as the contract of a function with an empty body.

ghost use Rattle.clear_laws.specs.StepLaws.{FlaggedRunsAreTold, HeldSlotsAreLeast, ClearNodesAreTold, PlacesHaveCauses};
ghost use Rattle.clear_laws.specs.CertificateLaws.{ClearVerdictsAreOne, ClearFirmwaresAreNeverFlagged, FlaggedRunsEndAtSites, FlaggedRunsEndAtPlaces, SlotsSpreadAlongLinks, AskingsTellClearNodes};
ghost use Rattle.clear_laws.specs.ListLaws.{SitesAreOne, PlacesAreOne, NeversAreOne, ClearWhereNoSites};

/// A run that ends flagged ends at the word of a node that isn't clear, with the cause of its flag, or by taking a vector that is assumed
/// never to be taken. A word has a cause exactly if some node there isn't clear.
pub fn flagged_runs_are_told()
    ensures runs { FlaggedRunsAreTold }
    ensures causes { PlacesHaveCauses }
{}

/// Clear nodes can be decided by a test of slots. The slots that may hold a live byte are the least that the rules give, and a slot
/// spreads along links to exactly the nodes at which it may hold one. A node is clear exactly if its condition is met.
pub fn clear_nodes_are_told()
    ensures tests { ClearNodesAreTold }
    ensures slots { HeldSlotsAreLeast }
    ensures links { SlotsSpreadAlongLinks }
    ensures askings { AskingsTellClearNodes }
{}

/// A certificate has at most one verdict on its nodes, one list of words at which a step may be flagged, one of these with causes, and
/// one of words of vectors that are assumed never to be taken and that some node may take. Without assumptions it is clear exactly if the
/// first list is empty.
pub fn clear_answers_are_one()
    ensures verdicts { ClearVerdictsAreOne }
    ensures sites { SitesAreOne }
    ensures places { PlacesAreOne }
    ensures nevers { NeversAreOne }
    ensures clear { ClearWhereNoSites }
{}

/// If the conditions hold without assumptions and each node is clear, every run from reset stays within the bound, and none is flagged.
/// Else a run that ends flagged ends at a word with a node that isn't clear, with the cause of its flag, or by taking a vector that is
/// assumed never to be taken; each such word has a cause.
pub fn flagged_runs_end_as_told()
    ensures never { ClearFirmwaresAreNeverFlagged }
    ensures sites { FlaggedRunsEndAtSites }
    ensures places { FlaggedRunsEndAtPlaces }
{}
