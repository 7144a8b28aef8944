//! The report as lines of words.

ghost use Rattle.std.specs.Prelude.{◌≡◌, map, codes, IfOk, OnOk, false};
ghost use Rattle.std.specs.List.{flat_map};
ghost use Rattle.text_base.specs.Lines.{line};
ghost use Rattle.text_base.specs.Writing.{with_word, with_words, with_end};
ghost use Rattle.line_reading.specs.Appending.{with_text};
ghost use Rattle.flash_image.specs.Naming.{least_name};
ghost use Rattle.cert_words.specs.Text.{numbered};
ghost use Rattle.reports.specs.Report.{witness_line, static_line, name_word, inst_line, heading, plain_text};

use crate::room::{fits_word, room};
use avr_model::device::Device;
use cert_writing::write_inst_key;
use certificate::{Certificate, Inst};
use flash_image::Names;
use line_reading::laws::appending_laws;
use std::alloc::{AllocError, Global};
use text_base::LineWriter;

// Writes the line of the bound.
fn write_bound(out: &mut LineWriter, bound: u16) -> Result<(), AllocError>
    ensures { OnOk result (out.new ≡ with_end (with_words out.old (numbered (codes "bound") bound))) }
{
    out.word(b"bound")?;
    out.dec(u64::from(bound))?;
    out.end_line()
}

// Writes whether a schedule attains the bound.
fn write_witness(out: &mut LineWriter, certificate: &Certificate) -> Result<(), AllocError>
    ensures { OnOk result (out.new ≡ with_end (with_words out.old (witness_line certificate.now.witness))) }
{
    out.word(b"witness")?;
    match certificate.witness() {
        Some(_) => out.word(b"attained")?,
        None => out.word(b"open")?,
    }
    out.end_line()
}

// Writes the line of static data.
fn write_static(
    out: &mut LineWriter,
    device: Device,
    bound: u16,
    static_end: Option<u16>,
) -> Result<(), AllocError>
    ensures { OnOk result (out.new ≡ with_end (with_words out.old (static_line device bound static_end))) }
{
    out.word(b"static")?;
    match static_end {
        Some(end) => {
            out.hex(u32::from(end), 4)?;
            out.word(b"room")?;
            out.dec(u64::from(room(device, end)))?;
            out.word(b"fits")?;
            out.word(fits_word(device, bound, end).as_bytes())?;
        }
        None => out.word(b"none")?,
    }
    out.end_line()
}

/// Writes the name of a word, or a hyphen if it has none.
pub fn write_name(out: &mut LineWriter, names: &Names, word: u32) -> Result<(), AllocError>
    ensures { OnOk result (out.new ≡ with_word out.old (name_word (least_name names.now word))) }
{
    match names.at(word) {
        Some(name) => out.word(name),
        None => out.word(b"-"),
    }
}

// Writes the line of an instance.
fn write_inst(
    out: &mut LineWriter,
    alloc: Global,
    device: Device,
    names: &Names,
    inst: &Inst,
) -> Result<(), AllocError>
    ensures { OnOk result (out.new ≡ with_end (with_words out.old (inst_line device names.now inst.now))) }
{
    out.word(b"inst")?;
    write_inst_key(out, alloc, device, &inst.key)?;
    write_name(out, names, inst.key.entry)?;
    out.word(b"need")?;
    out.dec(u64::from(inst.need))?;
    out.end_line()
}

// Writes the lines of instances.
fn write_insts(
    out: &mut LineWriter,
    alloc: Global,
    device: Device,
    names: &Names,
    insts: &[Inst],
) -> Result<(), AllocError>
    requires { out.old.begun ≡ false }
    ensures { OnOk result (out.new ≡ with_text out.old (flat_map line (map (inst_line device names.now) insts.now))) }
{
    appending_laws();
    for inst in insts {
        write_inst(out, alloc, device, names, inst)?;
    }
    Ok(())
}

// Writes the lines before those of instances.
fn write_heading(
    out: &mut LineWriter,
    device: Device,
    certificate: &Certificate,
    static_end: Option<u16>,
) -> Result<(), AllocError>
    requires { out.old.begun ≡ false }
    ensures { OnOk result (out.new ≡ with_text out.old (flat_map line (heading device certificate.now static_end))) }
{
    appending_laws();
    write_bound(out, certificate.bound())?;
    write_witness(out, certificate)?;
    write_static(out, device, certificate.bound(), static_end)
}

/// The report of a certificate as lines: its bound, whether a schedule attains it, the room of the stack in a device's SRAM after static
/// data that ends at the data address `static_end`, and the instances with the names of their entries and their needs in bytes.
pub fn report_text(
    alloc: Global,
    device: Device,
    certificate: &Certificate,
    names: &Names,
    static_end: Option<u16>,
) -> Result<Vec<u8>, AllocError>
    ensures { IfOk result (λ v. v.items ≡ plain_text device certificate.now names.now static_end) }
{
    let mut out = LineWriter::new(alloc);
    write_heading(&mut out, device, certificate, static_end)?;
    write_insts(&mut out, alloc, device, names, certificate.instances())?;
    Ok(out.finish())
}
