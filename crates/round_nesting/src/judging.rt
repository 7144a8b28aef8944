//! The verdict on a nesting by its graph.

ghost use Rattle.std.specs.Prelude.{◌≤◌, IfOk, true};
ghost use Rattle.indexmap.specs.IndexSet.{index_set_len};
ghost use Rattle.avr_model.specs.declared.device.Device as device_type;
ghost use Rattle.instance_graph.specs.Graph.{IsGraph};
ghost use Rattle.instance_graph.specs.Cycle.{IsNamed};
ghost use Rattle.round_nesting.specs.Drawn.{AreOthersApart, GraphTells, noted_of};
ghost use Rattle.round_nesting.specs.Nestings.{TellsAll};

use crate::allowances::Allowances;
use crate::drawing::drawn;
use crate::notes::{NotedEntrance, NotedSpot};
use crate::verdict::NestingVerdict;
use avr_model::device::Device;
use indexmap::IndexSet;
use instance_graph::{ComposeFault, Graph, GraphInst, compose};
use node_keys::{InstKey, Kind};
use round_laws::laws::graphs_tell;
use std::alloc::{AllocError, Global};

// The verdict that names an instance on a cycle.
fn named(graph: &[GraphInst], at: u32) -> NestingVerdict
    requires { IsNamed graph.now at }
    ensures { (device : device_type.Device) → GraphTells device graph.now result }
{
    graphs_tell();
    let key = &graph[at as usize].key;
    match key.kind {
        Kind::Vector(vector) => NestingVerdict::ReEntry(vector, key.entry),
        Kind::Root | Kind::Call => NestingVerdict::Recursion(key.entry),
    }
}

// A verdict, and if instances nest, their allowances.
#[derive(Drop)]
pub(crate) struct JudgedNesting {
    pub verdict: NestingVerdict,
    pub allowances: Allowances,
}

// The verdict on a family's graph, on this device.
fn judge_graph(
    alloc: Global,
    graph: &Graph,
    others: &IndexSet<InstKey>,
    entrances: &IndexSet<NotedEntrance>,
    device: Device,
) -> Result<JudgedNesting, AllocError>
    requires { IsGraph graph.now.instances }
    ensures { IfOk result (λ w. GraphTells device graph.now.instances w.verdict) }
{
    graphs_tell();
    let composed = match compose(alloc, graph, device.back()) {
        Ok(composed) => composed,
        Err(ComposeFault::Cycle(at)) => {
            return Ok(JudgedNesting {
                verdict: named(graph.instances.as_slice(), at),
                allowances: Allowances::none(alloc),
            });
        }
        Err(ComposeFault::Memory) => return Err(AllocError),
    };
    let need = composed.need(0);
    if need > u32::from(device.size()) {
        return Ok(JudgedNesting {
            verdict: NestingVerdict::TooDeep(need),
            allowances: Allowances::none(alloc),
        });
    }
    let allowances = Allowances::over(alloc, &composed, others, entrances, device)?;
    Ok(JudgedNesting {
        verdict: NestingVerdict::Nests,
        allowances,
    })
}

// The verdict on a family's notes, in which the root has a node, on this device.
pub(crate) fn judge_noted(
    alloc: Global,
    others: &IndexSet<InstKey>,
    spots: &IndexSet<NotedSpot>,
    entrances: &IndexSet<NotedEntrance>,
    device: Device,
) -> Result<JudgedNesting, AllocError>
    requires few { index_set_len others.now ≤ 65535 }
    requires apart { AreOthersApart others.now.keys }
    ensures { IfOk result (λ w. TellsAll device (noted_of true others.now.keys spots.now.keys entrances.now.keys) w.verdict) }
{
    let graph = drawn(alloc, others, spots.as_slice(), entrances.as_slice())?;
    let judged = judge_graph(alloc, &graph, others, entrances, device);
    drop(graph);
    judged
}
