//! The least ranks and needs, or the named cycle.

ghost use Rattle.std.specs.Prelude.{ℕ, ◌≡◌, ◌<◌, None, IfOk, IfErr, MatchOption, length};
ghost use Rattle.instance_graph.specs.Graph.{IsGraph, ReachesBy};
ghost use Rattle.instance_graph.specs.Table.{at, AreFound, IsInstMissing, IsSoundTable, IsInstStuck};
ghost use Rattle.instance_graph.specs.Least.{IsLeast};
ghost use Rattle.instance_graph.specs.Cycle.{IsNamed, IsFaultOf};

use crate::cycle::first_named;
use crate::depth_first::walk_all;
use crate::fault::ComposeFault;
use crate::found::Found;
use crate::graph::{Graph, GraphInst};
use crate::peel::peel;
use avr_model::listed::Listed;
use std::alloc::{AllocError, Global};

/// The least rank and the least need of each instance.
#[derive(Drop)]
pub struct Composed {
    /// By instance, the greatest number of entries between it and one that enters none. Its rank is above that of each instance it enters.
    pub ranks: Listed<u32>,
    /// By instance, how many bytes the stack pointer may fall below its base, with all that it enters.
    pub needs: Listed<u32>,
}

impl Composed {
    ghost use Rattle.std.specs.Prelude.{◌≡◌, slice_index};

    /// The need of an instance; 0 if there is no such instance.
    pub fn need(&self, inst: u32) -> u32
        ensures { result ≡ slice_index self.now.needs inst }
    {
        self.needs
            .as_slice()
            .get(inst as usize)
            .copied()
            .unwrap_or(0)
    }
}

// The ranks and needs of a settled table; `None` if something is missing.
fn settled(alloc: Global, table: &[Option<Found>]) -> Result<Option<Composed>, AllocError>
    ensures { IfOk result (λ found. MatchOption found (IsInstMissing table.now) (λ c. AreFound table.now (length table.now) c.ranks c.needs)) }
{
    let mut ranks = Vec::new(alloc);
    let mut needs = Vec::new(alloc);
    for i in 0..table.len() {
        match table[i] {
            None => return Ok(None),
            Some(found) => {
                ranks.push(found.rank)?;
                needs.push(found.need)?;
            }
        }
    }
    Ok(Some(Composed {
        ranks: Listed::new(ranks),
        needs: Listed::new(needs),
    }))
}

// The result of a table in which all that can be is settled: the least ranks and needs, or the named instance.
fn told(
    alloc: Global,
    instances: &[GraphInst],
    table: &[Option<Found>],
    numbers: Vec<u32>,
) -> Result<Composed, ComposeFault>
    requires graph { IsGraph instances.now }
    requires sound { (back : ℕ) × IsSoundTable back instances.now table.now }
    requires stuck { (i : ℕ) → i < length instances.now → at table.now i ≡ None → IsInstStuck instances.now table.now i }
    ensures ok { (back : ℕ) → IsSoundTable back instances.now table.now → IfOk result (λ c. IsLeast back instances.now c.ranks c.needs) }
    ensures acyclic { IfOk result (λ _. (i : ℕ) → ReachesBy instances.now i i → ⊥) }
    ensures err { IfErr result (IsFaultOf instances.now) }
{
    match settled(alloc, table)? {
        Some(composed) => Ok(composed),
        None => match first_named(alloc, instances, table, numbers)? {
            Some(at) => Err(ComposeFault::Cycle(at)),
            None => unreachable!(),
        },
    }
}

/// The least ranks and needs, if a return address takes `back` bytes. The rank of an instance is above that of each instance it enters. Its need is at least the offset of each
/// of its nodes, and offset + back + need of each instance it enters. Fails with `Cycle` exactly if an instance is on a cycle. It names one
/// of the least such vector, otherwise one of the least entry, and of those the one with the least number. Source: own.
pub fn compose(alloc: Global, graph: &Graph, back: u8) -> Result<Composed, ComposeFault>
    requires { IsGraph graph.now.instances }
    ensures ok { IfOk result (λ c. IsLeast back graph.now.instances c.ranks c.needs) }
    ensures acyclic { IfOk result (λ _. (i : ℕ) → ReachesBy graph.now.instances i i → ⊥) }
    ensures err { IfErr result (IsFaultOf graph.now.instances) }
{
    let instances = graph.instances.as_slice();
    let walked = walk_all(alloc, instances)?;
    let table = peel(alloc, instances, walked.order.as_slice(), back)?;
    told(alloc, instances, table.as_slice(), walked.component)
}

/// The least ranks and needs of an acyclic graph.
pub fn compose_acyclic(alloc: Global, graph: &Graph, back: u8) -> Result<Composed, AllocError>
    requires graph { IsGraph graph.now.instances }
    requires acyclic { (at : ℕ) → IsNamed graph.now.instances at → ⊥ }
    ensures { IfOk result (λ c. IsLeast back graph.now.instances c.ranks c.needs) }
{
    match compose(alloc, graph, back) {
        Ok(composed) => Ok(composed),
        Err(ComposeFault::Memory) => Err(AllocError),
        Err(ComposeFault::Cycle(_)) => unreachable!(),
    }
}
