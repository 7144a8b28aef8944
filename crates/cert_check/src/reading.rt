//! The nodes of a certificate, read with pairs or without.

ghost use Rattle.std.specs.Prelude.{◌≡◌, IsTrue, ◌↔◌, IfOk};
ghost use Rattle.edge_rules.specs.Seeds.{form_of};
ghost use Rattle.cert_check.specs.Reading.{facts_read, read_form, read_seeds, TellsNothing};

use abs_state::AbsState;
use certificate::{Certificate, HeldState, NodeForm, Seed, Seeded, hulls_of};
use node_keys::NodeKey;
use pair_domain::{Facts, PairFacts};
use std::alloc::{AllocError, Global};

// Nodes by key, each given by its state or by an earlier node.
#[derive(Drop)]
pub(crate) struct ReadNodes {
    nodes: Vec<(NodeKey, NodeForm)>,
}

impl Seeded for ReadNodes {
    ghost nodes = { λ reading. reading.nodes.items };

    fn count(&self) -> usize {
        self.nodes.len()
    }

    fn key(&self, at: usize) -> &NodeKey {
        &self.nodes[at].0
    }

    fn seed(&self, at: usize) -> Seed<'_> {
        match &self.nodes[at].1 {
            NodeForm::State(state) => Seed::State(state.get()),
            NodeForm::From(from) => Seed::From(*from),
        }
    }
}

// The facts on pairs as read: none if pairs aren't followed, else the state's facts, or those that its bytes imply.
fn facts_read(alloc: Global, followed: bool, state: &AbsState) -> Result<Facts, AllocError>
    ensures { IfOk result (λ facts. facts ≡ facts_read followed state.now.registers state.now.facts) }
{
    if !followed {
        return Ok(Facts::none());
    }
    if state.facts.is_followed() {
        return state.facts.copy(alloc);
    }
    let hulled = PairFacts {
        intervals: hulls_of(&state.registers),
        ..PairFacts::nothing()
    };
    Facts::new(alloc, hulled)
}

// A node's form, with its facts on pairs as read.
fn read_form(alloc: Global, followed: bool, form: &NodeForm) -> Result<NodeForm, AllocError>
    ensures { IfOk result (λ read. read ≡ read_form followed form.now) }
{
    match form {
        NodeForm::State(state) => {
            let state = state.get();
            let facts = facts_read(alloc, followed, state)?;
            let slots = state.slots.copy(alloc)?;
            let read = AbsState {
                registers: state.registers,
                flags: state.flags,
                slots,
                facts,
            };
            Ok(NodeForm::State(HeldState::new(alloc, read)?))
        }
        NodeForm::From(from) => Ok(NodeForm::From(*from)),
    }
}

// The certificate's nodes, read with pairs or without.
pub(crate) fn read(
    alloc: Global,
    followed: bool,
    certificate: &Certificate,
) -> Result<ReadNodes, AllocError>
    ensures { IfOk result (λ reading. reading.nodes.items ≡ read_seeds followed certificate.now.nodes) }
{
    let own = certificate.nodes();
    let mut nodes = Vec::new(alloc);
    for at in 0..own.len() {
        let form = read_form(alloc, followed, &own[at].1)?;
        nodes.push((own[at].0, form))?;
    }
    Ok(ReadNodes { nodes })
}

// Whether the node's own state, if it has one, has no facts on pairs.
pub(crate) fn tells_nothing(seed: Seed<'_>) -> bool
    ensures { IsTrue result ↔ TellsNothing (form_of seed.entry) }
{
    match seed {
        Seed::State(state) => match state.facts.get() {
            Some(facts) => PairFacts::nothing().le(&facts),
            None => true,
        },
        Seed::From(_) => true,
    }
}
