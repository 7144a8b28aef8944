//! Laws of the search, as the contract of a function that only calls others.

ghost use Rattle.witness_search.specs.Laws.{WaypointsAreOne, TrialsAreShort};

use edge_laws::expansions::filled_or_missing;
use family_graph::laws::deepest_chains_are_one;

/// The list of a certificate's waypoints is unique, so one schedule is due. A trial is short, so a certificate with its schedule is.
pub fn trials_are_due()
    ensures one { WaypointsAreOne }
    ensures short { TrialsAreShort }
{
    filled_or_missing();
    deepest_chains_are_one();
}
