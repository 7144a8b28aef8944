//! Laws of the transfer function of the pair domain: contracts of functions with an empty body.

ghost use Rattle.pair_laws.specs.Laws.{OperandsFit, ValuesAreCovered, RefinedHolds, RefinedIsOrdered};

/// The registers of a decoded instruction exist.
pub fn operands_fit()
    ensures { OperandsFit }
{}

/// The values of the plain rules are above the refined ones.
pub fn values_are_covered()
    ensures { ValuesAreCovered }
{}

/// Refinement is sound: if the states before and after an instruction stand for a machine, so does the refined one.
pub fn refined_holds()
    ensures { RefinedHolds }
{}

/// Refinement is below the plain state, is monotone, and yields states that the analysis works with.
pub fn refined_is_ordered()
    ensures { RefinedIsOrdered }
{}
