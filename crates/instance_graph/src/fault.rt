//! Why there are no ranks.

use std::alloc::AllocError;

/// Why `compose` returns no ranks.
#[derive(Drop)]
pub enum ComposeFault {
    /// The instance with this number reaches itself.
    Cycle(u32),
    /// Out of memory.
    Memory,
}

impl From<AllocError> for ComposeFault {
    ghost use Rattle.std.specs.Prelude.{◌≡◌};
    ghost use Rattle.instance_graph.specs.declared.fault.ComposeFault.TheVariants.{Memory};

    ghost from_gives = { λ _ e. e ≡ Memory };

    fn from(_: AllocError) -> ComposeFault {
        ComposeFault::Memory
    }
}
