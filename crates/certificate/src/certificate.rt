//! Certificates.

ghost use Rattle.std.specs.Prelude.{◌≡◌, ◌<◌, length, slice_get, Some, None, IfSome};
ghost use Rattle.std.specs.Option.{option_copied};
ghost use Rattle.witness_replay.specs.Spelling.{IsSchedule};
ghost use Rattle.certificate.specs.Versions.{written_version};
ghost use Rattle.certificate.specs.Claims.{IsClaim, IsCertificate};

use crate::form::Form;
use crate::instance::Inst;
use crate::version::{Version, written_version};
use avr_model::device::Device;
use edge_rules::{NodeForm, Seed, Seeded};
use node_keys::NodeKey;
use std::marker::Model;
use vector_table::Assumptions;
use witness_replay::Schedule;

/// A claim on a firmware for a device: its stack takes at most `bound` bytes. Besides these it has the assumptions, the instances and
/// nodes that every run stays in, and possibly a schedule whose run attains the bound. Its numbers are in range for the device, its lists
/// ascend strictly, each node's instance is in the list, and it is within the limits. The schedule takes vectors of the device. Source:
/// own.
#[derive(Drop)]
pub struct Certificate {
    device: Device,
    version: Version,
    bound: u16,
    assumptions: Assumptions,
    instances: Vec<Inst>,
    nodes: Vec<(NodeKey, NodeForm)>,
    witness: Option<Schedule>,
}

impl Model for Certificate {
    ghost use Rattle.certificate.specs.Claims.{Claim, IsCertificate};

    ghost Value = { Claim };

    ghost view = { λ c. record { device = c.device; version = c.version; bound = c.bound; assumptions = c.assumptions; instances = c.instances.items; nodes = c.nodes.items; witness = c.witness } };

    ghost invariant = { λ c. IsCertificate (record { device = c.device; version = c.version; bound = c.bound; assumptions = c.assumptions; instances = c.instances.items; nodes = c.nodes.items; witness = c.witness }) };
}

impl Certificate {
    /// The certificate of these parts for a device, which must be in range, in order and within the limits. Its version is the one for these
    /// assumptions, and it has no schedule.
    pub fn build(
        device: Device,
        bound: u16,
        assumptions: Assumptions,
        instances: Vec<Inst>,
        nodes: Vec<(NodeKey, NodeForm)>,
    ) -> Certificate
        requires { IsClaim (record { device = device; version = written_version assumptions; bound = bound; assumptions = assumptions; instances = instances.items; nodes = nodes.items; witness = None }) }
        ensures { result ≡ record { device = device; version = written_version assumptions; bound = bound; assumptions = assumptions; instances = instances.items; nodes = nodes.items; witness = None } }
    {
        let version = written_version(&assumptions);
        let form = Form { device, version };
        Certificate::of_version(form, bound, assumptions, instances, nodes)
    }

    /// The certificate of this form and these parts, which must be in range for the device, in order, within the limits, and in the
    /// version. It has no schedule.
    #[tactic(auto, using(crate::proofs::Kept::without_witness))]
    pub fn of_version(
        form: Form,
        bound: u16,
        assumptions: Assumptions,
        instances: Vec<Inst>,
        nodes: Vec<(NodeKey, NodeForm)>,
    ) -> Certificate
        requires { IsClaim (record { device = form.device; version = form.version; bound = bound; assumptions = assumptions; instances = instances.items; nodes = nodes.items; witness = None }) }
        ensures { result ≡ record { device = form.device; version = form.version; bound = bound; assumptions = assumptions; instances = instances.items; nodes = nodes.items; witness = None } }
    {
        Certificate {
            device: form.device,
            version: form.version,
            bound,
            assumptions,
            instances,
            nodes,
            witness: None,
        }
    }

    /// The certificate with another schedule, which must be one for its device, or with none.
    #[tactic(auto, using(crate::proofs::Kept::with_witness))]
    pub fn with_witness(self, schedule: Option<Schedule>) -> Certificate
        requires { IfSome schedule (IsSchedule self.device) }
        ensures { result ≡ record { device = self.device; version = self.version; bound = self.bound; assumptions = self.assumptions; instances = self.instances; nodes = self.nodes; witness = schedule } }
    {
        Certificate {
            device: self.device,
            version: self.version,
            bound: self.bound,
            assumptions: self.assumptions,
            instances: self.instances,
            nodes: self.nodes,
            witness: schedule,
        }
    }

    /// The device that it is for.
    pub fn device(&self) -> Device
        ensures { result ≡ self.now.device }
    {
        self.device
    }

    /// The version of its text.
    pub fn version(&self) -> Version
        ensures { result ≡ self.now.version }
    {
        self.version
    }

    /// The bound in bytes, at most the depth of the device.
    pub fn bound(&self) -> u16
        ensures { result ≡ self.now.bound }
    {
        self.bound
    }

    /// The assumptions.
    pub fn assumptions(&self) -> &Assumptions
        ensures { result.now ≡ self.now.assumptions }
    {
        &self.assumptions
    }

    /// The instances, strictly ascending, at most 65,536.
    pub fn instances(&self) -> &[Inst]
        ensures { result.now ≡ self.now.instances }
    {
        &self.instances
    }

    /// The number of instances.
    pub fn count_instances(&self) -> usize
        ensures { result ≡ length self.now.instances }
    {
        self.instances.len()
    }

    /// Instance `j`; `j` must be below the count.
    pub fn instance(&self, j: usize) -> Inst
        requires { j < length self.now.instances }
        ensures { Some result ≡ slice_get self.now.instances j }
    {
        self.instances[j]
    }

    /// The nodes, strictly ascending by key, at most 65,536. All parts meet the definition of a claim, and with the schedule that of a
    /// certificate.
    pub fn nodes(&self) -> &[(NodeKey, NodeForm)]
        ensures value { result.now ≡ self.now.nodes }
        ensures kept { IsClaim self.now }
        ensures whole { IsCertificate self.now }
    {
        &self.nodes
    }

    /// The schedule, if there is one. It is one for the device.
    pub fn witness(&self) -> Option<&Schedule>
        ensures { option_copied result ≡ self.now.witness }
    {
        self.witness.as_ref()
    }
}

impl Seeded for Certificate {
    ghost nodes = { λ c. c.nodes };

    fn count(&self) -> usize {
        self.nodes.len()
    }

    fn key(&self, at: usize) -> &NodeKey {
        &self.nodes[at].0
    }

    fn seed(&self, at: usize) -> Seed<'_> {
        match &self.nodes[at].1 {
            NodeForm::State(state) => Seed::State(state.get()),
            NodeForm::From(from) => Seed::From(*from),
        }
    }
}
