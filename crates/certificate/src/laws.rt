//! Laws of certificates, each as the contract of a function with an empty body.

ghost use Rattle.certificate.specs.Laws.{ClaimsAreSeeds, ConditionsMakeFamiliesSound};

/// The nodes of a certificate can be expanded: the invariants of the type are the premises of an expansion.
pub fn claims_are_seeds()
    ensures { ClaimsAreSeeds }
{}

/// If the conditions hold, the nodes of a certificate with its ranks and needs are a sound family.
pub fn conditions_make_families_sound()
    ensures { ConditionsMakeFamiliesSound }
{}
