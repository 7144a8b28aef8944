//! The writer of certificates.

ghost use Rattle.std.specs.Prelude.{◌≡◌, ◌∷◌, [], OnOk, IfOk, false};
ghost use Rattle.std.specs.List.{flat_map};
ghost use Rattle.text_base.specs.Lines.{line};
ghost use Rattle.line_reading.specs.Appending.{with_text};
ghost use Rattle.certificate.specs.Claims.{IsCertificate};
ghost use Rattle.cert_words.specs.Text.{numbered, version_line, device_lines, heading, witness_lines, end_line, text_of};

use crate::lines::{write_insts, write_nodes};
use avr_model::device::Device;
use avr_model::naming::class_of;
use certificate::{Certificate, Form, Version, says_device};
use line_reading::laws::appending_laws;
use std::alloc::{AllocError, Global};
use text_base::LineWriter;

// Writes the line of a name and a number.
fn write_numbered(out: &mut LineWriter, name: &[u8], number: u64) -> Result<(), AllocError>
    requires { out.old.begun ≡ false }
    ensures { OnOk result (out.new ≡ with_text out.old (line (numbered name.now number))) }
{
    appending_laws();
    out.word(name)?;
    out.dec(number)?;
    out.end_line()
}

// Writes the line of two words.
fn write_pair(out: &mut LineWriter, first: &[u8], second: &[u8]) -> Result<(), AllocError>
    requires { out.old.begun ≡ false }
    ensures { OnOk result (out.new ≡ with_text out.old (line (first.now ∷ second.now ∷ []))) }
{
    appending_laws();
    out.word(first)?;
    out.word(second)?;
    out.end_line()
}

// Writes the line of the version, for a text that says its device or not.
fn write_version(out: &mut LineWriter, form: Form) -> Result<(), AllocError>
    requires { out.old.begun ≡ false }
    ensures { OnOk result (out.new ≡ with_text out.old (line (version_line form.device form.version))) }
{
    let number = match (
        says_device(form.device),
        form.device.has_elpm(),
        form.version,
    ) {
        (true, true, _) => b"5",
        (true, false, _) => b"4",
        (false, _, Version::One) => b"1",
        (false, _, Version::Two) => b"2",
        (false, _, Version::Three) => b"3",
    };
    write_pair(out, b"stackcert", number)
}

// Writes the line of the device, if the text says it.
#[tactic(auto, using(crate::proofs::Written::device_written))]
fn write_device(out: &mut LineWriter, says: bool, device: Device) -> Result<(), AllocError>
    requires { out.old.begun ≡ false }
    ensures { OnOk result (out.new ≡ with_text out.old (flat_map line (device_lines says device))) }
{
    if says {
        write_pair(out, b"device", class_of(device))
    } else {
        Ok(())
    }
}

// Writes the version, the device and the bound.
#[tactic(auto, using(crate::proofs::Written::heading_written))]
fn write_heading(out: &mut LineWriter, form: Form, bound: u16) -> Result<(), AllocError>
    requires { out.old.begun ≡ false }
    ensures { OnOk result (out.new ≡ with_text out.old (flat_map line (heading form.device form.version bound))) }
{
    let says = says_device(form.device);
    write_version(out, form)?;
    write_device(out, says, form.device)?;
    write_numbered(out, b"bound", u64::from(bound))?;
    Ok(())
}

// Writes the schedule, or the line that there is none.
#[tactic(auto, using(crate::proofs::Written::open_written))]
fn write_witness(out: &mut LineWriter, certificate: &Certificate) -> Result<(), AllocError>
    requires { out.old.begun ≡ false }
    ensures { OnOk result (out.new ≡ with_text out.old (flat_map line (witness_lines certificate.now.witness))) }
{
    match certificate.witness() {
        Some(schedule) => {
            write_pair(out, b"witness", b"attained")?;
            schedule.write(out)?;
        }
        None => write_pair(out, b"witness", b"open")?,
    }
    Ok(())
}

// Writes the certificate's text.
fn write_all(
    out: &mut LineWriter,
    alloc: Global,
    certificate: &Certificate,
) -> Result<(), AllocError>
    requires { out.old.begun ≡ false }
    ensures { OnOk result (out.new ≡ with_text out.old (text_of certificate.now)) }
{
    appending_laws();
    let device = certificate.device();
    let version = certificate.version();
    let form = Form { device, version };
    write_heading(out, form, certificate.bound())?;
    let assumptions = certificate.assumptions();
    write_numbered(out, b"assume", assumptions.entries().len() as u64)?;
    assumption_files::write(device, assumptions, out)?;
    let instances = certificate.instances();
    write_numbered(out, b"instances", instances.len() as u64)?;
    write_insts(out, alloc, device, instances)?;
    let nodes = certificate.nodes();
    write_numbered(out, b"nodes", nodes.len() as u64)?;
    write_nodes(out, alloc, form, instances, nodes)?;
    write_witness(out, certificate)?;
    out.word(b"end")?;
    out.end_line()?;
    Ok(())
}

// A certificate meets the definition of one.
fn keeps(certificate: &Certificate)
    ensures { IsCertificate certificate.now }
{
    let _nodes = certificate.nodes();
}

/// The text of the certificate, which says the device unless it is one of four. The inverse of `cert_format::read`. Fails if memory runs out.
pub fn write(alloc: Global, certificate: &Certificate) -> Result<Vec<u8>, AllocError>
    ensures text { IfOk result (λ v. v.items ≡ text_of certificate.now) }
    ensures kept { IsCertificate certificate.now }
{
    keeps(certificate);
    let mut out = LineWriter::new(alloc);
    write_all(&mut out, alloc, certificate)?;
    Ok(out.finish())
}
