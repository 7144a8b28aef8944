//! The law of explanations: the contract of a function that only calls others.

ghost use Rattle.chain_explain.specs.Laws.{ExplanationsAreOne, ExplanationsTell};

use edge_laws::expansions::filled_or_missing;
use family_graph::laws::{deepest_chains_are_bounded, deepest_chains_are_one};
use round_laws::laws::rounds_are_reached;

/// A certificate has at most one explanation. Its parts nest from the root on and add up to its number, which is at most the bound; it is
/// the bound if the rounds end with this certificate.
pub fn explanations_tell()
    ensures one { ExplanationsAreOne }
    ensures tells { ExplanationsTell }
{
    filled_or_missing();
    deepest_chains_are_one();
    rounds_are_reached();
    deepest_chains_are_bounded();
}
