//! Faults of the text of an assumption list.

use std::alloc::AllocError;
use thiserror::Error;

/// Why a text is not read as an assumption list. Lines count from 1.
#[derive(Clone, Copy, Debug, PartialEq, Eq, Drop, Error)]
pub enum AssumeText {
    /// The lines before this one are those of a list. This one is malformed, or is line 4,097.
    #[error("assumptions malformed line {0}")]
    Malformed(u32),
    /// The lines before this one are those of a list. This one has the right form but is not above the last.
    #[error("assumptions order line {0}")]
    Order(u32),
    /// Out of memory.
    #[error("out of memory")]
    Memory,
}

impl From<AllocError> for AssumeText {
    ghost use Rattle.std.specs.Prelude.{◌≡◌};
    ghost use Rattle.assumption_files.specs.declared.fault.AssumeText.TheVariants.{Memory};

    ghost from_gives = { λ fault e. e ≡ Memory };

    fn from(_fault: AllocError) -> AssumeText {
        AssumeText::Memory
    }
}
