//! Landings of edges.

ghost use Rattle.std.specs.Prelude.{◌≡◌, ◌≤◌, ◌<◌, ◌↔◌, length, IsTrue, IfOk, OnOk};
ghost use Rattle.edge_rules.specs.Views.{index_of};
ghost use Rattle.edge_rules.specs.Expansion.{HasKeyAt};
ghost use Rattle.edge_laws.specs.Expansions.{AreSeedsAscending};
ghost use Rattle.family_edges.specs.Landings.{landing_of, landings_by};
ghost use Rattle.cert_check.specs.Reading.{IsOpen};
ghost use Rattle.cert_check.specs.Demands.{IsLeastOffered, IsOfferNoted, AreBeside, HasSlots, KeyBelow, lesser_key, AreTargets};
ghost use Rattle.family_edges.specs.Clauses.{Grows};
ghost use Rattle.cert_check.specs.Sites.{LandsAt, LeadsAt, MissesAt};

use crate::reading::tells_nothing;
use abs_state::AbsState;
use avr_model::listed::Listed;
use certificate::{Certificate, Seeded};
use edge_rules::Edge;
use family_edges::{Filled, Landing};
use node_keys::NodeKey;
use std::alloc::{AllocError, Global};

// The nodes at which edges may land.
#[derive(Clone, Copy)]
pub(crate) struct LandingSite<'c, 'n> {
    // Whether pairs are followed.
    pub followed: bool,
    // The certificate's nodes before expansion.
    pub certificate: &'c Certificate,
    // The expanded nodes.
    pub nodes: &'n Filled,
}

// The landings of a node's edges.
#[derive(Drop)]
pub(crate) struct Landed {
    // The least key of an edge that does not land.
    pub gap: Option<NodeKey>,
    // The nodes to which edges lead, if the certificate has nodes of their keys.
    pub landings: Listed<Landing>,
}

// Whether edges may land at the node of this number.
fn is_open(followed: bool, certificate: &Certificate, at: usize) -> bool
    requires inside { at < length certificate.now.nodes }
    requires ascending { AreSeedsAscending certificate.now.nodes }
    ensures { (k : _) → HasKeyAt certificate.now.nodes at k → IsTrue result ↔ IsOpen followed certificate.now.nodes k }
{
    followed || tells_nothing(certificate.seed(at))
}

// Whether an edge with this state lands at the node of this key and number: the node exists, is open, and has a state above this one.
pub(crate) fn lands(
    site: &LandingSite<'_, '_>,
    index: Option<usize>,
    key: &NodeKey,
    state: &AbsState,
) -> bool
    requires index { index ≡ index_of key.now site.now.nodes.now }
    requires slots { HasSlots key.now state.now }
    requires beside { AreBeside site.now.certificate.now.nodes site.now.nodes.now }
    ensures { IsTrue result ↔ LandsAt site.now (record { key = key.now; state = state.now }) }
{
    let count = site.nodes.count();
    match index {
        Some(at) => {
            prove!(at < count);
            state.le(site.nodes.state(at)) && is_open(site.followed, site.certificate, at)
        }
        None => false,
    }
}

// The lesser of two keys.
fn lesser(least: Option<NodeKey>, key: &NodeKey) -> NodeKey
    ensures { result ≡ lesser_key least key.now }
{
    match least {
        Some(other) if other.cmp(key).is_le() => other,
        _ => *key,
    }
}

// The landings of a node with one more edge, whose target is looked up once, from the number `first` on.
fn note(
    site: &LandingSite<'_, '_>,
    first: usize,
    landed: &mut Landed,
    edge: &Edge,
) -> Result<(), AllocError>
    requires few { length site.now.nodes.now ≤ 65536 }
    requires slots { HasSlots edge.now.to edge.now.state }
    requires beside { AreBeside site.now.certificate.now.nodes site.now.nodes.now }
    ensures gap { OnOk result (IsOfferNoted (LeadsAt site.now) (MissesAt site.now) lesser_key landed.old.gap edge.now landed.new.gap) }
    ensures landings { Grows result landed.old.landings landed.new.landings (landing_of site.now.nodes.now edge.now) }
{
    let index = site.nodes.find_from(first, &edge.to);
    if let Some(at) = index {
        landed.landings.push(Landing {
            kind: edge.kind,
            at: at as u32,
        })?;
    }
    if !lands(site, index, &edge.to, &edge.state) {
        landed.gap = Some(lesser(landed.gap, &edge.to));
    }
    Ok(())
}

// The landings of these edges. Targets are looked up from the number `first` on.
pub(crate) fn landed_from(
    alloc: Global,
    site: &LandingSite<'_, '_>,
    first: usize,
    edges: &[Edge],
) -> Result<Landed, AllocError>
    requires few { length site.now.nodes.now ≤ 65536 }
    requires targets { AreTargets edges.now }
    requires beside { AreBeside site.now.certificate.now.nodes site.now.nodes.now }
    ensures gap { IfOk result (λ l. IsLeastOffered (LeadsAt site.now) (MissesAt site.now) KeyBelow edges.now l.gap) }
    ensures landings { IfOk result (λ landed. landed.landings ≡ landings_by site.now.nodes.now edges.now) }
{
    let mut landed = Landed {
        gap: None,
        landings: Listed::empty(alloc),
    };
    for at in 0..edges.len() {
        note(site, first, &mut landed, &edges[at])?;
    }
    Ok(landed)
}
