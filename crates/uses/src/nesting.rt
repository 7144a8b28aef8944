//! Shows `instance_graph`.

ghost use Rattle.std.specs.Prelude.{◌≡◌, ◌≤◌, ℕ, None, IfOk, IfSome};
ghost use Rattle.instance_graph.specs.Graph.{IsGraph, ReachesBy};
ghost use Rattle.instance_graph.specs.Laws.{Nests};

use instance_graph::laws::needs_bound_nesting;
use instance_graph::{ComposeFault, Graph, compose};
use std::alloc::{AllocError, Global};

/// A bound on how deep calls and interrupts nest from the root, if a return address takes `back` bytes. `None` if an instance reaches itself.
pub fn nesting_of(alloc: Global, graph: &Graph, back: u8) -> Result<Option<u32>, AllocError>
    requires { IsGraph graph.now.instances }
    ensures bound { IfOk result (λ o. IfSome o (λ n. (depth : ℕ) → Nests back graph.now.instances 0 depth → depth ≤ n)) }
    ensures none { IfOk result (λ o. o ≡ None → (i : ℕ) × ReachesBy graph.now.instances i i) }
{
    needs_bound_nesting();
    match compose(alloc, graph, back) {
        Ok(composed) => Ok(Some(composed.need(0))),
        Err(ComposeFault::Cycle(_)) => Ok(None),
        Err(ComposeFault::Memory) => Err(AllocError),
    }
}
