//! That the other order of work finds no family.

use round_rules::Refusal;
use std::alloc::AllocError;

/// The other order of work finds no family: a test of the rounds holds on the way, an edge leads out of the family, there are too many
/// instances to ask about, or memory ran out. It says nothing of the firmware: if it has no certificate, the rounds tell why. Source: own.
#[derive(Clone, Copy, Drop)]
pub struct Unfound;

impl From<AllocError> for Unfound {
    ghost use Rattle.std.specs.Prelude.{⊤};

    ghost from_gives = { λ _ _. ⊤ };

    fn from(_: AllocError) -> Unfound {
        Unfound
    }
}

impl From<Refusal> for Unfound {
    ghost use Rattle.std.specs.Prelude.{⊤};

    ghost from_gives = { λ _ _. ⊤ };

    fn from(_: Refusal) -> Unfound {
        Unfound
    }
}
