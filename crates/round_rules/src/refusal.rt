//! Reasons for having no certificate.

use certificate::Limit;
use local_rules::NodeFault;
use std::alloc::AllocError;

/// The reason for which the analysis gives no certificate. Words are word addresses of flash. Source: own.
#[derive(Clone, Copy, PartialEq, Eq, Drop)]
pub enum Refusal {
    /// An entry of the list, from 0, that no list of the device has; the first.
    Misfit(u32),
    /// A node has this fault; or the stack would exceed the device's SRAM, which is told as too deep at word 0 with the need of the whole.
    /// Never with the one for want of memory.
    Node(NodeFault),
    /// The function that begins at this word is recursive, possibly through other calls.
    Recursion(u32),
    /// The handler of this vector, which begins at this word, may be entered again before it returns.
    ReEntry(u8, u32),
    /// There are more nodes or cells than a certificate may have.
    TooLarge(Limit),
    /// The rounds do not end within this many steps.
    Spent(u64),
    /// Out of memory.
    Memory,
}

impl From<AllocError> for Refusal {
    ghost use Rattle.std.specs.Prelude.{◌≡◌};
    ghost use Rattle.round_rules.specs.declared.refusal.Refusal.TheVariants.{Memory};

    ghost from_gives = { λ _ e. e ≡ Memory };

    fn from(_: AllocError) -> Refusal {
        Refusal::Memory
    }
}
