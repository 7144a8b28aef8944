//! The edges of a family by the numbers of its nodes.

ghost use Rattle.std.specs.Prelude.{◌≡◌, IfOk, map};
ghost use Rattle.chain_explain.specs.Moves.{at_of, leads_by};

use avr_model::listed::Listed;
use family_edges::Landing;
use std::alloc::{AllocError, Global};

// The nodes of these landings.
fn numbers(alloc: Global, landings: &[Landing]) -> Result<Vec<u32>, AllocError>
    ensures { IfOk result (λ numbers. numbers.items ≡ map at_of landings.now) }
{
    landings.iter().map(|landing| landing.at).collect(alloc)
}

// By node, the nodes to which its edges lead.
pub(crate) fn leads(
    alloc: Global,
    landings: &[Listed<Landing>],
) -> Result<Vec<Listed<u32>>, AllocError>
    ensures { IfOk result (λ graph. graph.items ≡ leads_by landings.now) }
{
    let mut graph = Vec::new(alloc);
    for listed in landings {
        let to = numbers(alloc, listed.as_slice())?;
        graph.push(Listed::new(to))?;
    }
    Ok(graph)
}
