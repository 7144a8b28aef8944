//! The guided trials of a certificate.

ghost use Rattle.std.specs.Prelude.{◌≡◌, ◌≢◌, ◌≤◌, ◌<◌, ◌+◌, ◌++◌, Err, IfOk, OnOk};
ghost use Rattle.avr_model.specs.Devices.{device_of};
ghost use Rattle.avr_model.specs.Vectors.{last_vector};
ghost use Rattle.guided_trials.specs.Attaining.{IsFoundFor, IsCompleted, AttainedWhere, AttainsIfBounded, KeepsValid};
ghost use Rattle.guided_trials.specs.Guides as guides;

use crate::guide::{Candidate, Candidates, Guide};
use crate::telling::telling;
use crate::trial::first_trial;
use avr_model::listed::Listed;
use certificate::{Certificate, Inst};
use flash_image::Flash;
use node_keys::Kind;
use std::alloc::{AllocError, Global};
use vector_table::Assumptions;
use witness_replay::Schedule;

// Whether the instance is an entry of the vector.
fn is_of(instance: &Inst, vector: u8) -> bool
    ensures { result ≡ guides.is_of instance.now.key.kind vector }
{
    match instance.key.kind {
        Kind::Vector(v) => v == vector,
        Kind::Root | Kind::Call => false,
    }
}

// The greatest need of the entries of a vector, 0 if there is none.
fn need_of(instances: &[Inst], vector: u8) -> u32
    ensures { result ≡ guides.need_of instances.now vector }
{
    let mut need = 0;
    for instance in instances {
        if is_of(instance, vector) {
            need = need.max(instance.need);
        }
    }
    need
}

// Appends the interrupts of a vector, 2 to the device's last.
fn add_takes(
    takes: &mut Listed<Candidate>,
    flash: &Flash,
    assumptions: &Assumptions,
    instances: &[Inst],
    vector: u8,
) -> Result<(), AllocError>
    requires least { 2 ≤ vector }
    requires most { vector ≤ last_vector (device_of flash.now) }
    ensures { OnOk result (takes.new ≡ takes.old ++ guides.takes_at flash.now assumptions.now instances.now vector) }
{
    if assumptions.never(flash.device().vector_word(vector)) {
        return Ok(());
    }
    let need = need_of(instances, vector);
    takes.push(Candidate {
        vector,
        clears: false,
        need,
    })?;
    if vector == flash.device().watchdog() {
        takes.push(Candidate {
            vector,
            clears: true,
            need,
        })?;
    }
    Ok(())
}

// The guide of a certificate's trials.
fn guide_of(
    alloc: Global,
    flash: &Flash,
    assumptions: &Assumptions,
    certificate: &Certificate,
) -> Result<Guide, AllocError>
    ensures { IfOk result (λ guide. guide ≡ guides.guide_of flash.now assumptions.now certificate.now) }
{
    let bytes = telling(alloc, flash)?;
    let mut takes = Listed::empty(alloc);
    for n in 0..flash.device().last_vector() - 1 {
        add_takes(
            &mut takes,
            flash,
            assumptions,
            certificate.instances(),
            n + 2,
        )?;
    }
    Ok(Guide {
        bytes,
        takes: Candidates::new(takes),
        bound: certificate.bound(),
        back: flash.device().back(),
    })
}

// The schedule of the first of this many guided trials whose depth is at least the certificate's bound. None exactly if no trial's depth
// is.
fn found(
    alloc: Global,
    flash: &Flash,
    assumptions: &Assumptions,
    certificate: &Certificate,
    trials: u32,
) -> Result<Option<Schedule>, AllocError>
    ensures first { IfOk result (IsFoundFor flash.now assumptions.now trials certificate.now) }
    ensures attained { IfOk result (AttainsIfBounded flash.now assumptions.now certificate.now.bound) }
{
    let guide = guide_of(alloc, flash, assumptions, certificate)?;
    first_trial(alloc, flash, assumptions, &guide, trials)
}

// The certificate with a schedule whose run is as deep as its bound, if it has none and one of this many guided trials finds one.
fn with_schedule(
    alloc: Global,
    flash: &Flash,
    assumptions: &Assumptions,
    certificate: Certificate,
    trials: u32,
) -> Result<Certificate, AllocError>
    requires { certificate.device ≡ device_of flash.now }
    ensures completed { IfOk result (IsCompleted flash.now assumptions.now trials certificate) }
    ensures attained { IfOk result (AttainedWhere flash.now assumptions.now trials certificate) }
    ensures valid { IfOk result (KeepsValid flash.now assumptions.now certificate) }
    ensures device { IfOk result (λ c. c.device ≡ device_of flash.now) }
{
    if certificate.witness().is_some() {
        return Ok(certificate);
    }
    let schedule = found(alloc, flash, assumptions, &certificate, trials)?;
    Ok(certificate.with_witness(schedule))
}

/// Why there is no certificate with a schedule.
#[derive(Clone, Copy, Drop)]
pub enum AttainFault {
    /// The certificate is for another device than the firmware's.
    Device,
    /// Out of memory.
    Memory,
}

/// The certificate with a schedule whose run is as deep as its bound, if it has none and one of this many guided trials finds one: that
/// of the first such trial. All else stays. If the bound bounds all runs and the certificate is valid, so is the result: the replay of
/// its schedule ends without a stop, at the depth of the bound. Fails if the certificate is for another device than the firmware's, or if
/// memory runs out. Source: own.
pub fn attain(
    alloc: Global,
    flash: &Flash,
    assumptions: &Assumptions,
    certificate: Certificate,
    trials: u32,
) -> Result<Certificate, AttainFault>
    ensures completed { IfOk result (IsCompleted flash.now assumptions.now trials certificate) }
    ensures attained { IfOk result (AttainedWhere flash.now assumptions.now trials certificate) }
    ensures valid { IfOk result (KeepsValid flash.now assumptions.now certificate) }
    ensures device { IfOk result (λ c. c.device ≡ device_of flash.now) }
    ensures other { result ≡ Err AttainFault.Device → certificate.device ≢ device_of flash.now }
{
    if certificate.device() != flash.device() {
        drop(certificate);
        return Err(AttainFault::Device);
    }
    match with_schedule(alloc, flash, assumptions, certificate, trials) {
        Ok(whole) => Ok(whole),
        Err(_) => Err(AttainFault::Memory),
    }
}
