//! Numbers of instances.

ghost use Rattle.std.specs.Prelude.{◌≡◌, ◌+◌, ◌<◌, ◌≤◌, ◌↔◌, length, IfOk, OnOk, IsTrue};
ghost use Rattle.family_graph.specs.Graphs.{HasInst};
ghost use Rattle.family_graph.specs.Numbers.{EndsWith, GrowsByInst, AreInstNumbers, number_in};
ghost use Rattle.family_graph.specs.Numbered.{NumbersAll};

use family_edges::Filled;
use node_keys::InstKey;
use std::alloc::{AllocError, Global};

// The instances of a family's nodes in the order of their keys, and for each node the number of its instance.
#[derive(Drop)]
pub(crate) struct Numbering {
    // The instances.
    pub insts: Vec<InstKey>,
    // The number of each node's instance.
    pub numbers: Vec<u32>,
}

// Whether the instance is the last.
fn ends_with(insts: &[InstKey], inst: &InstKey) -> bool
    ensures { IsTrue result ↔ EndsWith insts.now inst.now }
{
    match insts.last() {
        None => false,
        Some(last) => *last == *inst,
    }
}

// Appends the instance of the next node, unless it is the last one already. Returns its number.
fn put(insts: &mut Vec<InstKey>, inst: &InstKey) -> Result<u32, AllocError>
    requires { length insts.old.items < 65536 }
    ensures grows { OnOk result (GrowsByInst insts.old.items inst.now insts.new.items) }
    ensures number { IfOk result (λ number. number + 1 ≡ length insts.new.items) }
{
    if !ends_with(insts, inst) {
        insts.push(*inst)?;
    }
    Ok(insts.len() as u32 - 1)
}

// The numbers of the instances of all nodes.
pub(crate) fn numbered(alloc: Global, nodes: &Filled) -> Result<Numbering, AllocError>
    requires { length nodes.now ≤ 65536 }
    ensures { IfOk result (λ n. AreInstNumbers nodes.now (length nodes.now) n.insts.items n.numbers.items) }
{
    let mut insts = Vec::new(alloc);
    let mut numbers = Vec::new(alloc);
    for at in 0..nodes.count() {
        let number = put(&mut insts, &nodes.key(at).inst)?;
        numbers.push(number)?;
    }
    Ok(Numbering { insts, numbers })
}

// The number of an instance that has a node.
pub(crate) fn number_of(nodes: &Filled, numbering: &Numbering, inst: &InstKey) -> u32
    requires numbers { NumbersAll nodes.now numbering.now }
    requires has { HasInst nodes.now inst.now }
    ensures { result ≡ number_in numbering.now.insts.items inst.now }
{
    let (low, _) = nodes.span(inst);
    numbering.numbers[low]
}
