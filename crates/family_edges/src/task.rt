//! The input of an analysis.

ghost use Rattle.std.specs.Prelude.{◌≡◌, IfOk};
ghost use Rattle.edge_rules.specs.Roots.{root_of};

use abs_state::AbsState;
use flash_image::Flash;
use std::alloc::{AllocError, Global};
use vector_table::Assumptions;

/// A firmware, its assumptions, and the allocator.
#[derive(Clone, Copy)]
pub struct Task<'a> {
    /// The allocator.
    pub alloc: Global,
    /// The words of flash.
    pub flash: &'a Flash,
    /// The assumptions.
    pub assumptions: &'a Assumptions,
}

impl<'a> Task<'a> {
    /// The state of the root's frame at reset. Pairs are followed exactly if the assumptions have the line `pairs`.
    pub fn root(&self) -> Result<AbsState, AllocError>
        ensures { IfOk result (λ s. s ≡ root_of self.now.assumptions.now) }
    {
        if self.assumptions.has_pairs() {
            return AbsState::following_root(self.alloc);
        }
        Ok(AbsState::root(self.alloc))
    }
}
