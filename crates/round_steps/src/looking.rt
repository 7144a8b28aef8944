//! Visits of nodes.

ghost use Rattle.std.specs.Prelude.{◌≡◌, ◌≢◌, Ok, Err, IfOk, IfErr, OnOk};
ghost use Rattle.node_keys.specs.declared.keys.NodeKey as key_type;
ghost use Rattle.local_rules.specs.declared.local.NodeFault.TheVariants.{Memory};
ghost use Rattle.avr_model.specs.Devices.{device_of};
ghost use Rattle.avr_model.specs.Assumptions.{has_pairs};
ghost use Rattle.local_rules.specs.Cover.{IsNodeIn};
ghost use Rattle.local_rules.specs.Local as rows;
ghost use Rattle.family_edges.specs.Ways.{ways_of};
ghost use Rattle.round_rules.specs.Families.{AreFormed};
ghost use Rattle.round_rules.specs.Refusals.{word_of};
ghost use Rattle.round_steps.specs.Looks.{IsWorst, IsSeenBesides, AreSeen, SeesMore};
ghost use Rattle.family_edges.specs.Tasks.{task_of};

use abs_state::AbsState;
use abs_step::local;
use family_edges::Task;
use family_edges::ways::{Way, ways};
use local_rules::{Local, NodeFault};
use node_keys::NodeKey;
use round_table::Table;
use std::alloc::AllocError;

/// The result of a visit.
#[derive(Drop)]
pub struct Look {
    /// The node.
    pub key: NodeKey,
    /// Its local part.
    pub part: Local,
    /// Its entries of other instances.
    pub ways: Vec<Way>,
}

/// The results of visits: those of nodes without a fault, and the least fault of the others.
#[derive(Drop)]
pub struct SeenState {
    /// The results for nodes without a fault.
    pub looks: Vec<Look>,
    /// The fault that counts, if a node has one.
    pub worst: Option<NodeFault>,
}

// The result of a visit, or the node's fault.
fn found_at(task: &Task<'_>, key: &NodeKey, state: &AbsState) -> Result<Look, NodeFault>
    requires { IsNodeIn (device_of task.now.flash.now) (has_pairs task.now.assumptions.now) key.now state.now }
    ensures key { IfOk result (λ x. x.key ≡ key.now) }
    ensures part { IfOk result (λ x. rows.local (task_of task.now) key.now state.now ≡ Ok x.part) }
    ensures ways { IfOk result (λ x. x.ways.items ≡ ways_of (task_of task.now) key.now x.part.calls) }
    ensures fault { IfErr result (λ e. e ≢ Memory → rows.local (task_of task.now) key.now state.now ≡ Err e) }
{
    let part = local(task.alloc, task.flash, task.assumptions, key, state)?;
    let ways = ways(task, key, part.calls.as_slice())?;
    Ok(Look {
        key: *key,
        part,
        ways,
    })
}

// The word of a fault.
fn word(fault: &NodeFault) -> u32
    ensures { result ≡ word_of fault.now }
{
    match *fault {
        NodeFault::UnresolvedJump(pc)
        | NodeFault::UntrackedSp(pc)
        | NodeFault::Unsupported(pc)
        | NodeFault::TooDeep(pc, _)
        | NodeFault::UnknownPointer(pc) => pc,
        NodeFault::Memory => 0,
    }
}

// The fault that counts of these: by cause, then word, then offset.
fn worse(worst: Option<NodeFault>, fault: NodeFault) -> NodeFault
    ensures { IsWorst worst fault result }
{
    let Some(other) = worst else {
        return fault;
    };
    if other.cause() == fault.cause() {
        if word(&other) < word(&fault) {
            return other;
        }
        if word(&fault) < word(&other) {
            return fault;
        }
    }
    other.lesser(fault)
}

// Adds one more result.
fn see(seen: &mut SeenState, found: Result<Look, NodeFault>) -> Result<(), AllocError>
    ensures { OnOk result (IsSeenBesides found seen.old seen.new) }
{
    match found {
        Ok(x) => {
            seen.looks.push(x)?;
            Ok(())
        }
        Err(NodeFault::Memory) => Err(AllocError),
        Err(fault) => {
            seen.worst = Some(worse(seen.worst, fault));
            Ok(())
        }
    }
}

// Visits one more node, if the family has it.
fn look_at(
    seen: &mut SeenState,
    task: &Task<'_>,
    table: &Table,
    key: &NodeKey,
) -> Result<(), AllocError>
    requires { AreFormed (device_of task.now.flash.now) (has_pairs task.now.assumptions.now) table.now }
    ensures { SeesMore result (task_of task.now) table.now seen.old key.now seen.new }
{
    let Some(state) = table.get(key) else {
        return Ok(());
    };
    let found = found_at(task, key, state);
    see(seen, found)
}

/// Visits these nodes of a family: their results, or the fault that counts.
pub fn look_all(task: &Task<'_>, table: &Table, keys: &[NodeKey]) -> Result<SeenState, AllocError>
    requires { AreFormed (device_of task.now.flash.now) (has_pairs task.now.assumptions.now) table.now }
    ensures { IfOk result (λ seen. AreSeen (task_of task.now) table.now keys.now seen) }
{
    let mut seen = SeenState {
        looks: Vec::new(task.alloc),
        worst: None,
    };
    for at in 0..keys.len() {
        look_at(&mut seen, task, table, &keys[at])?;
    }
    Ok(seen)
}
