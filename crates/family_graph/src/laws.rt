//! Laws of graphs of families and of their deepest chains: contracts of functions that only call others.

ghost use Rattle.family_graph.specs.Laws.{GraphsAreAlike, DeepestChainsAreOne, DeepestChainsAreBounded};

use instance_graph::laws::{answers_are_one, chains_are_one};

/// Two graphs of a family have the same least ranks and needs, and the same deepest chain.
#[tactic(auto, using(crate::proofs::Alike::graphs_are_alike))]
pub fn graphs_are_alike()
    ensures { GraphsAreAlike }
{}

/// A family has one deepest chain, and the root one least need.
pub fn deepest_chains_are_one()
    ensures { DeepestChainsAreOne }
{
    graphs_are_alike();
    answers_are_one();
    chains_are_one();
}

/// The root's least need over the family of a certificate whose conditions hold is at most the bound.
pub fn deepest_chains_are_bounded()
    ensures { DeepestChainsAreBounded }
{}
