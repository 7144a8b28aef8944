//! The text of an explanation.

ghost use Rattle.std.specs.Prelude.{◌≡◌, ◌<◌, map, IfOk, OnOk, false};
ghost use Rattle.std.specs.List.{flat_map};
ghost use Rattle.text_base.specs.Lines.{line};
ghost use Rattle.text_base.specs.Writing.{with_words, with_end};
ghost use Rattle.line_reading.specs.Appending.{with_text};
ghost use Rattle.assumption_files.specs.Spelling.{word_address_text};
ghost use Rattle.reports.specs.Explained.{explain_line, point_words, link_line, path_line, path_text, part_text, explanation_text};

use crate::text::write_name;
use assumption_files::write_word_address;
use cert_writing::write_inst_key;
use chain_explain::{Explanation, Part, PartPoint};
use flash_image::{Device, Names};
use line_reading::laws::appending_laws;
use std::alloc::{AllocError, Global};
use text_base::LineWriter;

// Writes the word of a link's point, or the word of its recur edge.
fn write_point(out: &mut LineWriter, device: Device, point: &PartPoint) -> Result<(), AllocError>
    ensures { OnOk result (out.new ≡ with_words out.old (point_words device point.now)) }
{
    match point {
        PartPoint::Node(pc, _) => {
            out.word(b"at")?;
            write_word_address(out, device, *pc)
        }
        PartPoint::Recur(word) => {
            out.word(b"recur")?;
            write_word_address(out, device, *word)
        }
    }
}

// Writes the line of a link.
fn write_link(
    out: &mut LineWriter,
    alloc: Global,
    device: Device,
    names: &Names,
    part: &Part,
) -> Result<(), AllocError>
    ensures { OnOk result (out.new ≡ with_end (with_words out.old (link_line device names.now part.now))) }
{
    out.word(b"link")?;
    write_inst_key(out, alloc, device, &part.inst)?;
    write_name(out, names, part.inst.entry)?;
    write_point(out, device, &part.point)?;
    out.word(b"adds")?;
    out.dec(u64::from(part.adds))?;
    out.end_line()
}

// Writes word addresses.
fn write_words(out: &mut LineWriter, device: Device, words: &[u32]) -> Result<(), AllocError>
    ensures { OnOk result (out.new ≡ with_words out.old (map (word_address_text device) words.now)) }
{
    for word in words {
        write_word_address(out, device, *word)?;
    }
    Ok(())
}

// Writes the line of the words of a path.
fn write_walk(out: &mut LineWriter, device: Device, walk: &[u32]) -> Result<(), AllocError>
    requires { out.old.begun ≡ false }
    ensures { OnOk result (out.new ≡ with_text out.old (line (path_line device walk.now))) }
{
    appending_laws();
    out.word(b"path")?;
    write_words(out, device, walk)?;
    out.end_line()
}

// Writes the line of the path to a point; a recur edge has none.
fn write_path(out: &mut LineWriter, device: Device, point: &PartPoint) -> Result<(), AllocError>
    requires { out.old.begun ≡ false }
    ensures { OnOk result (out.new ≡ with_text out.old (path_text device point.now)) }
{
    match point {
        PartPoint::Node(_, walk) => write_walk(out, device, walk.as_slice()),
        PartPoint::Recur(_) => Ok(()),
    }
}

// Writes the lines of a link.
fn write_part(
    out: &mut LineWriter,
    alloc: Global,
    device: Device,
    names: &Names,
    part: &Part,
) -> Result<(), AllocError>
    requires { out.old.begun ≡ false }
    ensures { OnOk result (out.new ≡ with_text out.old (part_text device names.now part.now)) }
{
    appending_laws();
    write_link(out, alloc, device, names, part)?;
    write_path(out, device, &part.point)
}

// Writes the lines of all links.
fn write_parts(
    out: &mut LineWriter,
    alloc: Global,
    device: Device,
    names: &Names,
    explanation: &Explanation,
) -> Result<(), AllocError>
    requires { out.old.begun ≡ false }
    ensures { OnOk result (out.new ≡ with_text out.old (flat_map (part_text device names.now) explanation.now.parts)) }
{
    for at in 0..explanation.count() {
        write_part(out, alloc, device, names, explanation.part(at))?;
    }
    Ok(())
}

// Writes the first line.
fn write_sum(out: &mut LineWriter, bound: u16, explanation: &Explanation) -> Result<(), AllocError>
    ensures { OnOk result (out.new ≡ with_end (with_words out.old (explain_line bound explanation.now))) }
{
    out.word(b"explain")?;
    out.word(b"bound")?;
    out.dec(u64::from(bound))?;
    out.word(b"least")?;
    out.dec(u64::from(explanation.least()))?;
    out.end_line()
}

/// The text of an explanation of a certificate with this bound for a device: the sum of its links, and for each link the instance with the name of its
/// entry, the word of the point, the bytes that it adds, and the words of a shortest path to the point; for a recur edge the word that
/// calls enter instead of both.
pub fn explanation_text(
    alloc: Global,
    device: Device,
    bound: u16,
    names: &Names,
    explanation: &Explanation,
) -> Result<Vec<u8>, AllocError>
    ensures { IfOk result (λ v. v.items ≡ explanation_text device bound names.now explanation.now) }
{
    appending_laws();
    let mut out = LineWriter::new(alloc);
    write_sum(&mut out, bound, explanation)?;
    write_parts(&mut out, alloc, device, names, explanation)?;
    Ok(out.finish())
}
