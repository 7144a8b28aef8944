//! Demands of nodes on their instances.

ghost use Rattle.std.specs.Prelude.{◌≡◌, ◌≤◌, ◌<◌, length, Some, Contains};
ghost use Rattle.avr_model.specs.State.{SIZE};
ghost use Rattle.edge_rules.specs.declared.edge.Edge as edge_type;
ghost use Rattle.node_keys.specs.Keys.{root_inst};
ghost use Rattle.certificate.specs.Insts.{inst_keys};
ghost use Rattle.cert_check.specs.Demands.{AreInstances, number_in, rank_at, need_at, offset_demand, below_demand, demands_of, cut_demand, demand_from, demands_by};
ghost use Rattle.family_edges.specs.Clauses.{Grows};
ghost use Rattle.family_edges.specs.Tasks.{task_of};

use certificate::Inst;
use edge_rules::Edge;
use edge_rules::edge::is_entry;
use family_edges::Task;
use node_keys::{InstKey, NodeKey, SpForm};
use std::alloc::AllocError;
use vector_table::Assumptions;

// A demand of a node on its instance or on the root, by the numbers of instances.
#[derive(Clone, Copy)]
pub(crate) struct Demand {
    // The node's instance.
    pub inst: usize,
    // The instance below it, whose rank must be lower; none for the node's own offset.
    pub into: Option<usize>,
    // The least need of the instance, in bytes.
    pub bytes: u32,
}

// An instance from which others are entered.
#[derive(Clone, Copy)]
struct Outer {
    // Its number.
    inst: usize,
    // How many bytes the bases of the others lie below its own.
    fall: u32,
}

// The rank of the instance of this number.
pub(crate) fn rank_at(instances: &[Inst], j: usize) -> u32
    requires { j < length instances.now }
    ensures { result ≡ rank_at instances.now j }
{
    instances[j].rank
}

// The need of the instance of this number.
pub(crate) fn need_at(instances: &[Inst], j: usize) -> u32
    requires there { j < length instances.now }
    requires instances { AreInstances instances.now }
    ensures value { result ≡ need_at instances.now j }
    ensures small { result ≤ SIZE }
{
    instances[j].need
}

// The number of a key's instance, which must be in the list.
pub(crate) fn number_of(instances: &[Inst], key: &InstKey) -> usize
    requires instances { AreInstances instances.now }
    requires there { Contains (inst_keys instances.now) key.now }
    ensures value { result ≡ number_in instances.now key.now }
    ensures inside { result < length instances.now }
{
    instances.partition_point(|inst| inst.key.cmp(key).is_lt())
}

// The demand of a closed offset.
fn add_offset(demands: &mut Vec<Demand>, inst: usize, form: &SpForm) -> Result<(), AllocError>
    ensures { Grows result demands.old.items demands.new.items (offset_demand inst form.now) }
{
    if let SpForm::Closed(offset) = *form {
        demands.push(Demand {
            inst,
            into: None,
            bytes: u32::from(offset),
        })?;
    }
    Ok(())
}

// The demand of an instance that is entered from another one.
fn add_below(
    demands: &mut Vec<Demand>,
    instances: &[Inst],
    outer: Outer,
    into: &InstKey,
) -> Result<(), AllocError>
    requires instances { AreInstances instances.now }
    requires there { Contains (inst_keys instances.now) into.now }
    requires low { outer.fall < 131072 }
    ensures { Grows result demands.old.items demands.new.items (below_demand instances.now outer.inst outer.fall into.now) }
{
    let into = number_of(instances, into);
    demands.push(Demand {
        inst: outer.inst,
        into: Some(into),
        bytes: outer.fall + need_at(instances, into),
    })?;
    Ok(())
}

// The demand of the recur edge to this instance, if it is cut; a return address takes `back` bytes.
fn add_recur(
    demands: &mut Vec<Demand>,
    instances: &[Inst],
    inst: &InstKey,
    assumptions: &Assumptions,
    back: u8,
) -> Result<(), AllocError>
    requires instances { AreInstances instances.now }
    requires root { Contains (inst_keys instances.now) root_inst }
    requires there { Contains (inst_keys instances.now) inst.now }
    ensures { Grows result demands.old.items demands.new.items (cut_demand back instances.now assumptions.now inst.now) }
{
    match inst.cut(assumptions) {
        None => Ok(()),
        Some(depth) => {
            let root = Outer {
                inst: number_of(instances, &InstKey::root()),
                fall: u32::from(depth) + u32::from(back),
            };
            add_below(demands, instances, root, inst)
        }
    }
}

// The demand of an entry of another instance, unless it is cut.
fn add_entry(
    demands: &mut Vec<Demand>,
    instances: &[Inst],
    outer: Outer,
    edge: &Edge,
    assumptions: &Assumptions,
) -> Result<(), AllocError>
    requires instances { AreInstances instances.now }
    requires there { Contains (inst_keys instances.now) edge.now.to.inst }
    requires low { outer.fall < 131072 }
    ensures { Grows result demands.old.items demands.new.items (demand_from assumptions.now instances.now outer edge.now) }
{
    if is_entry(edge.kind) {
        return match edge.to.inst.cut(assumptions) {
            None => add_below(demands, instances, outer, &edge.to.inst),
            Some(_) => Ok(()),
        };
    }
    Ok(())
}

// The demands of all entries of other instances.
fn add_entries(
    demands: &mut Vec<Demand>,
    instances: &[Inst],
    outer: Outer,
    edges: &[Edge],
    assumptions: &Assumptions,
) -> Result<(), AllocError>
    requires instances { AreInstances instances.now }
    requires there { (e : edge_type.Edge) → Contains edges.now e → Contains (inst_keys instances.now) e.to.inst }
    requires low { outer.fall < 131072 }
    ensures { Grows result demands.old.items demands.new.items (demands_by assumptions.now instances.now outer edges.now) }
{
    for at in 0..edges.len() {
        add_entry(demands, instances, outer, &edges[at], assumptions)?;
    }
    Ok(())
}

// The demands of a node with this key and these edges.
pub(crate) fn add_demands(
    task: &Task<'_>,
    demands: &mut Vec<Demand>,
    instances: &[Inst],
    key: &NodeKey,
    edges: &[Edge],
) -> Result<(), AllocError>
    requires instances { AreInstances instances.now }
    requires root { Contains (inst_keys instances.now) root_inst }
    requires own { Contains (inst_keys instances.now) key.now.inst }
    requires there { (e : edge_type.Edge) → Contains edges.now e → Contains (inst_keys instances.now) e.to.inst }
    ensures { Grows result demands.old.items demands.new.items (demands_of (task_of task.now) instances.now key.now edges.now) }
{
    let inst = number_of(instances, &key.inst);
    add_offset(demands, inst, &key.sp)?;
    let back = task.flash.device().back();
    add_recur(demands, instances, &key.inst, task.assumptions, back)?;
    let outer = Outer {
        inst,
        fall: u32::from(key.offset()) + u32::from(back),
    };
    add_entries(demands, instances, outer, edges, task.assumptions)
}
