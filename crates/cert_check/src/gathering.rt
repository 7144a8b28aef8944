//! One pass over all edges.

ghost use Rattle.std.specs.Prelude.{◌≡◌, ◌<◌, ◌≤◌, IfOk, length, Contains};
ghost use Rattle.avr_model.specs.Assumptions.{has_pairs};
ghost use Rattle.avr_model.specs.Devices.{device_of};
ghost use Rattle.edge_rules.specs.Views.{AreShown};
ghost use Rattle.family_edges.specs.Exits.{AreExits};
ghost use Rattle.cert_check.specs.Demands.{AreInstances, AreBeside, AllBelong, IsGathering, AreGathered, IsNodeGathered};
ghost use Rattle.family_edges.specs.Tasks.{task_of};
ghost use Rattle.node_keys.specs.Keys.{root_inst};
ghost use Rattle.certificate.specs.Insts.{inst_keys};

use crate::demand::{Demand, add_demands};
use crate::landing::{Landed, LandingSite, landed_from};
use crate::verdict::{Judgement, Reason};
use avr_model::listed::Listed;
use certificate::Certificate;
use family_edges::{Filled, Landing, Task, next_with};
use local_rules::Exit;
use node_keys::NodeKey;
use std::alloc::AllocError;

// The results for nodes all of whose edges land.
#[derive(Drop)]
pub(crate) struct LandedNodes {
    // Their demands on instances.
    pub demands: Vec<Demand>,
    // The landings of each.
    pub landings: Listed<Listed<Landing>>,
}

// The least key of an edge of this node that does not land. If all edges land, the node is gathered.
fn gather_node(
    task: &Task<'_>,
    site: &LandingSite<'_, '_>,
    exits: &Listed<Option<Exit>>,
    at: usize,
    gathered: &mut LandedNodes,
) -> Result<Option<NodeKey>, AllocError>
    requires inside { at < length site.now.nodes.now }
    requires shown { AreShown (device_of task.now.flash.now) site.now.nodes.now }
    requires few { length site.now.nodes.now ≤ 65536 }
    requires followed { site.now.followed ≡ has_pairs task.now.assumptions.now }
    requires instances { AreInstances site.now.certificate.now.instances }
    requires root { Contains (inst_keys site.now.certificate.now.instances) root_inst }
    requires belong { AllBelong site.now.certificate.now.instances site.now.nodes.now }
    requires beside { AreBeside site.now.certificate.now.nodes site.now.nodes.now }
    requires taken { AreExits (task_of task.now) site.now.nodes.now exits.now }
    requires before { AreGathered (task_of task.now) site.now.certificate.now site.now.nodes.now at gathered.now }
    ensures { IfOk result (λ gap. IsNodeGathered (task_of task.now) site.now.certificate.now site.now.nodes.now at gap gathered.new) }
{
    let edges = next_with(task, site.nodes, at, exits)?;
    let Landed { gap, landings } = landed_from(task.alloc, site, at + 1, edges.as_slice())?;
    if let Some(to) = gap {
        return Ok(Some(to));
    }
    gathered.landings.push(landings)?;
    let key = site.nodes.key(at);
    add_demands(
        task,
        &mut gathered.demands,
        site.certificate.instances(),
        key,
        edges.as_slice(),
    )?;
    Ok(None)
}

// All demands and landings, or the first node with an edge that does not land, and the least key of such an edge.
pub(crate) fn gather(
    task: &Task<'_>,
    certificate: &Certificate,
    nodes: &Filled,
    exits: &Listed<Option<Exit>>,
) -> Result<Judgement<LandedNodes>, AllocError>
    requires few { length nodes.now ≤ 65536 }
    requires shown { AreShown (device_of task.now.flash.now) nodes.now }
    requires instances { AreInstances certificate.now.instances }
    requires root { Contains (inst_keys certificate.now.instances) root_inst }
    requires belong { AllBelong certificate.now.instances nodes.now }
    requires beside { AreBeside certificate.now.nodes nodes.now }
    requires taken { AreExits (task_of task.now) nodes.now exits.now }
    ensures { IfOk result (IsGathering (task_of task.now) certificate.now.nodes certificate.now.instances nodes.now) }
{
    let site = LandingSite {
        followed: task.assumptions.has_pairs(),
        certificate,
        nodes,
    };
    let mut gathered = LandedNodes {
        demands: Vec::new(task.alloc),
        landings: Listed::empty(task.alloc),
    };
    for at in 0..nodes.count() {
        if let Some(to) = gather_node(task, &site, exits, at, &mut gathered)? {
            return Ok(Judgement::Rejected(Reason::Edge(at as u32, to)));
        }
    }
    Ok(Judgement::Accepted(gathered))
}
