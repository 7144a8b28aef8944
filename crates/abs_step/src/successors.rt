//! Adds successors in the same instance to a list of nodes.

ghost use Rattle.std.specs.Prelude.{◌≡◌, length, IfOk, IfErr};
ghost use Rattle.node_keys.specs.Keys.{offset_of};
ghost use Rattle.local_rules.specs.declared.local.NodeFault.TheVariants.{Memory};
ghost use Rattle.local_rules.specs.Raw.{one, two};
ghost use Rattle.local_rules.specs.Raw as raw;
ghost use Rattle.local_rules.specs.Flow.{branch};
ghost use Rattle.local_rules.specs.Flow as flow;
ghost use Rattle.abs_step.specs.Adding.{Adds};
ghost use Rattle.abs_step.specs.Sites.{site_of};

use crate::moves::Moves;
use crate::site::Site;
use abs_state::{AbsFlags, AbsState, Registers};
use avr_model::device::Device;
use bit_domain::Tri;
use local_reads::flow::further;
use local_rules::local::NodeFault;
use node_keys::NodeKey;
use std::alloc::Global;

/// A copy of the state.
pub fn copied(alloc: Global, state: &AbsState) -> Result<AbsState, NodeFault>
    ensures ok { IfOk result (λ s. s ≡ state.now) }
    ensures err { IfErr result (λ e. e ≡ Memory) }
{
    Ok(state.copy(alloc)?)
}

/// The state with other registers and flags.
pub fn changed(
    alloc: Global,
    state: &AbsState,
    registers: &Registers,
    flags: AbsFlags,
) -> Result<AbsState, NodeFault>
    ensures ok { IfOk result (λ s. s ≡ record state.now { registers = registers.now; flags = flags }) }
    ensures err { IfErr result (λ e. e ≡ Memory) }
{
    Ok(AbsState {
        registers: *registers,
        flags,
        slots: state.slots.copy(alloc)?,
        facts: state.facts.copy(alloc)?,
    })
}

/// The key at another word of the same instance.
pub fn at_word(key: &NodeKey, pc: u32) -> NodeKey
    ensures { result ≡ raw.at_word key.now pc }
{
    NodeKey {
        pc,
        delay: false,
        ..*key
    }
}

/// The key at another word after an indirect transfer, branch or skip, which ends the pick of a jump table.
pub fn off_table(key: &NodeKey, pc: u32) -> NodeKey
    ensures { result ≡ raw.off_table key.now pc }
{
    NodeKey {
        pc,
        delay: false,
        pick: None,
        ..*key
    }
}

/// The key at the next word.
pub fn next(device: Device, key: &NodeKey) -> NodeKey
    ensures { result ≡ raw.next device key.now }
{
    at_word(key, further(device, key, 1))
}

/// One node with this state.
pub fn add_copy(
    nodes: &mut Moves<'_>,
    alloc: Global,
    key: NodeKey,
    state: &AbsState,
) -> Result<(), NodeFault>
    requires { length state.now.slots ≡ offset_of key.sp }
    ensures { Adds nodes.old nodes.new result (one key state.now) }
{
    let copy = copied(alloc, state)?;
    nodes.add(key, copy)
}

/// Two nodes with this state.
pub fn add_two(
    nodes: &mut Moves<'_>,
    alloc: Global,
    first: NodeKey,
    second: NodeKey,
    state: &AbsState,
) -> Result<(), NodeFault>
    requires first { length state.now.slots ≡ offset_of first.sp }
    requires second { length state.now.slots ≡ offset_of second.sp }
    ensures { Adds nodes.old nodes.new result (two first second state.now) }
{
    add_copy(nodes, alloc, first, state)?;
    add_copy(nodes, alloc, second, state)
}

/// Continues at another word.
pub fn going_to(nodes: &mut Moves<'_>, site: &Site<'_>, pc: u32) -> Result<(), NodeFault>
    ensures { Adds nodes.old nodes.new result (raw.going_to site.now.key.now site.now.state.now pc) }
{
    add_copy(nodes, site.alloc, at_word(site.key, pc), site.state)
}

/// Continues at the next word with these registers and flags.
pub fn setting(
    nodes: &mut Moves<'_>,
    site: &Site<'_>,
    registers: &Registers,
    flags: AbsFlags,
) -> Result<(), NodeFault>
    ensures { Adds nodes.old nodes.new result (raw.setting (site_of site.now) registers.now flags) }
{
    let after = changed(site.alloc, site.state, registers, flags)?;
    nodes.add(next(site.device, site.key), after)
}

/// One successor if the condition is known, else two, each with its key.
pub fn branch_by(
    nodes: &mut Moves<'_>,
    site: &Site<'_>,
    condition: Tri,
    taken: NodeKey,
    other: NodeKey,
) -> Result<(), NodeFault>
    requires taken { offset_of taken.sp ≡ offset_of site.now.key.now.sp }
    requires other { offset_of other.sp ≡ offset_of site.now.key.now.sp }
    ensures { Adds nodes.old nodes.new result (flow.branch_by condition taken other site.now.state.now) }
{
    match condition {
        Tri::One => add_copy(nodes, site.alloc, taken, site.state),
        Tri::Zero => add_copy(nodes, site.alloc, other, site.state),
        Tri::Any => add_two(nodes, site.alloc, other, taken, site.state),
    }
}

/// One successor if the condition is known, else two.
pub fn branch(
    nodes: &mut Moves<'_>,
    site: &Site<'_>,
    condition: Tri,
    words: (u32, u32),
) -> Result<(), NodeFault>
    ensures { Adds nodes.old nodes.new result (branch condition site.now.key.now site.now.state.now words.0 words.1) }
{
    let (taken, other) = (off_table(site.key, words.0), off_table(site.key, words.1));
    branch_by(nodes, site, condition, taken, other)
}
