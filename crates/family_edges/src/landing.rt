//! Landings of edges, by the numbers of nodes.

ghost use Rattle.std.specs.Prelude.{◌≡◌, ◌≤◌, length, IfOk};
ghost use Rattle.family_edges.specs.Landings.{landings_by};

use crate::filled::Filled;
use avr_model::listed::Listed;
use edge_rules::Edge;
use node_keys::EdgeKind;
use std::alloc::{AllocError, Global};

/// The landing of an edge.
#[derive(Clone, Copy)]
pub struct Landing {
    /// The kind of the edge.
    pub kind: EdgeKind,
    /// The number of the target, from 0.
    pub at: u32,
}

/// The landings of these edges. Targets are looked up from the number `first` on.
pub fn landings_of(
    alloc: Global,
    nodes: &Filled,
    first: usize,
    edges: &[Edge],
) -> Result<Listed<Landing>, AllocError>
    requires { length nodes.now ≤ 65536 }
    ensures { IfOk result (λ all. all ≡ landings_by nodes.now edges.now) }
{
    let mut landings = Listed::empty(alloc);
    for edge in edges {
        if let Some(at) = nodes.find_from(first, &edge.to) {
            landings.push(Landing {
                kind: edge.kind,
                at: at as u32,
            })?;
        }
    }
    Ok(landings)
}
