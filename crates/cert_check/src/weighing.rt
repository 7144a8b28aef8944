//! Ranks and needs against the demands on them.

ghost use Rattle.std.specs.Prelude.{◌≡◌, ◌≤◌, ◌↔◌, Contains, IsTrue};
ghost use Rattle.avr_model.specs.Devices.{device_of, size_of};
ghost use Rattle.node_keys.specs.Keys.{root_inst};
ghost use Rattle.certificate.specs.Claims.{IsClaim};
ghost use Rattle.certificate.specs.Insts.{inst_keys};
ghost use Rattle.cert_check.specs.Demands.{AreInstances, AreDemandsInside, IsInside, IsLeastOffered, IsOfferNoted, MeetsRank, LowRank, PairBelow, lesser_pair, MeetsNeed, LowNeed, NumberBelow, lesser_number, IsMost, more_asked, IsWeighed};

use crate::demand::{Demand, need_at, number_of, rank_at};
use crate::verdict::{Judgement, Reason};
use certificate::{Certificate, Inst};
use family_edges::Task;
use flash_image::Flash;
use node_keys::InstKey;

// The lesser of two pairs, in lexicographic order.
fn lesser_pair(least: Option<(usize, usize)>, pair: (usize, usize)) -> (usize, usize)
    ensures { result ≡ lesser_pair least pair }
{
    match least {
        Some(other) if other.0 < pair.0 || (other.0 == pair.0 && other.1 <= pair.1) => other,
        _ => pair,
    }
}

// The least pair after one more demand.
fn noted_rank(
    instances: &[Inst],
    least: Option<(usize, usize)>,
    demand: &Demand,
) -> Option<(usize, usize)>
    requires { IsInside instances.now demand.now }
    ensures { IsOfferNoted (MeetsRank instances.now) (LowRank instances.now) lesser_pair least demand.now result }
{
    match demand.into {
        Some(into) if rank_at(instances, demand.inst) <= rank_at(instances, into) => {
            Some(lesser_pair(least, (demand.inst, into)))
        }
        _ => least,
    }
}

// The first instance whose rank isn't above that of one that it enters, and the least such one.
fn low_rank(instances: &[Inst], demands: &[Demand]) -> Option<(usize, usize)>
    requires { AreDemandsInside instances.now demands.now }
    ensures { IsLeastOffered (MeetsRank instances.now) (LowRank instances.now) PairBelow demands.now result }
{
    let mut least = None;
    for at in 0..demands.len() {
        least = noted_rank(instances, least, &demands[at]);
    }
    least
}

// The lesser of two numbers.
fn lesser_number(least: Option<usize>, number: usize) -> usize
    ensures { result ≡ lesser_number least number }
{
    match least {
        Some(other) if other <= number => other,
        _ => number,
    }
}

// The least instance after one more demand.
fn noted_need(instances: &[Inst], least: Option<usize>, demand: &Demand) -> Option<usize>
    requires inside { IsInside instances.now demand.now }
    requires instances { AreInstances instances.now }
    ensures { IsOfferNoted (MeetsNeed instances.now) (LowNeed instances.now) lesser_number least demand.now result }
{
    if need_at(instances, demand.inst) < demand.bytes {
        Some(lesser_number(least, demand.inst))
    } else {
        least
    }
}

// The first instance whose need is too low.
fn low_need(instances: &[Inst], demands: &[Demand]) -> Option<usize>
    requires inside { AreDemandsInside instances.now demands.now }
    requires instances { AreInstances instances.now }
    ensures { IsLeastOffered (MeetsNeed instances.now) (LowNeed instances.now) NumberBelow demands.now result }
{
    let mut least = None;
    for at in 0..demands.len() {
        least = noted_need(instances, least, &demands[at]);
    }
    least
}

// The greatest demand after one more.
fn more_asked(most: u32, j: usize, demand: &Demand) -> u32
    ensures { result ≡ more_asked most j demand.now }
{
    if demand.inst == j && most < demand.bytes {
        demand.bytes
    } else {
        most
    }
}

// The greatest demand on an instance.
fn most_asked(demands: &[Demand], j: usize) -> u32
    ensures { IsMost demands.now j result }
{
    let mut most = 0;
    for at in 0..demands.len() {
        most = more_asked(most, j, &demands[at]);
    }
    most
}

// Whether the bound is at least this need, and at most the size of the device's SRAM.
fn is_bounded(flash: &Flash, bound: u16, need: u32) -> bool
    ensures { IsTrue result ↔ ((need ≤ bound) × (bound ≤ size_of (device_of flash.now))) }
{
    need <= u32::from(bound) && bound <= flash.device().size()
}

// The bound, or the first reason, if all edges land, by the demands of nodes.
pub(crate) fn weigh(
    task: &Task<'_>,
    certificate: &Certificate,
    demands: &[Demand],
) -> Judgement<u16>
    requires claim { IsClaim certificate.now }
    requires inside { AreDemandsInside certificate.now.instances demands.now }
    requires root { Contains (inst_keys certificate.now.instances) root_inst }
    ensures { IsWeighed task.now.flash.now certificate.now task.now.assumptions.now demands.now result }
{
    let instances = certificate.instances();
    if let Some((j, l)) = low_rank(instances, demands) {
        return Judgement::Rejected(Reason::Rank(j as u32, l as u32));
    }
    if let Some(j) = low_need(instances, demands) {
        return Judgement::Rejected(Reason::Need(j as u32, most_asked(demands, j)));
    }
    let need = need_at(instances, number_of(instances, &InstKey::root()));
    let bound = certificate.bound();
    if !is_bounded(task.flash, bound, need) {
        return Judgement::Rejected(Reason::Bound(need));
    }
    if !certificate.assumptions().same(task.assumptions) {
        return Judgement::Rejected(Reason::Assumptions);
    }
    Judgement::Accepted(bound)
}
