//! The law of nestings, as the contract of a function with an empty body.

ghost use Rattle.round_nesting.specs.Nestings.{NestingsAreSmall};

/// At most as many instances are noted as the family has nodes.
pub fn nestings_are_small()
    ensures { NestingsAreSmall }
{}
