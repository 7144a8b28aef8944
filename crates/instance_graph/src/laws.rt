//! Laws of ranks, needs and chains: contracts of functions with an empty body.

ghost use Rattle.instance_graph.specs.Laws.{RanksRuleOutCycles, NeedsBoundNesting, LeastNeedsAreOne, ChainsReachTheNeed, ChainsAreOne};

/// If ranks exist, no instance reaches itself.
pub fn ranks_rule_out_cycles()
    ensures { RanksRuleOutCycles }
{}

/// The need of an instance bounds the bytes of all calls and interrupts that nest below it. The deepest chain is as deep as the root's
/// need, so no smaller bound holds.
pub fn needs_bound_nesting()
    ensures bound { NeedsBoundNesting }
    ensures reached { ChainsReachTheNeed }
{}

/// Least ranks and needs are unique, and so is the named instance.
pub fn answers_are_one()
    ensures { LeastNeedsAreOne }
{}

/// The deepest chain is unique.
pub fn chains_are_one()
    ensures { ChainsAreOne }
{}
