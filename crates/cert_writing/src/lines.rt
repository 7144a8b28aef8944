//! The lines of instances and nodes.

ghost use Rattle.std.specs.Prelude.{◌≡◌, map, Some, OnOk, IfSome, IfNone, Contains, false};
ghost use Rattle.std.specs.List.{flat_map};
ghost use Rattle.std.specs.List.Sorted.{IsStrictlySortedBy};
ghost use Rattle.text_base.specs.Lines.{line};
ghost use Rattle.text_base.specs.Writing.{with_words, with_end};
ghost use Rattle.line_reading.specs.Appending.{with_text};
ghost use Rattle.node_keys.specs.Order.{inst_cmp};
ghost use Rattle.certificate.specs.declared.instance.Inst.{Inst};
ghost use Rattle.certificate.specs.Insts.{inst_keys};
ghost use Rattle.certificate.specs.Claims.{seed_keys, Belongs};
ghost use Rattle.std.specs.List.{AllByRecursion};
ghost use Rattle.cert_words.specs.Text.{inst_words, node_words_at, node_words, inst_number};
ghost use Rattle.cert_writing.specs.Numbers.{IsAt, IsNowhereFrom};

use crate::keys::{write_inst_key, write_point};
use crate::state::write_form;
use avr_model::device::Device;
use certificate::{Form, Inst};
use edge_rules::NodeForm;
use line_reading::laws::appending_laws;
use node_keys::laws::keys_are_ordered;
use node_keys::{InstKey, NodeKey};
use std::alloc::{AllocError, Global};
use text_base::LineWriter;

// Writes the line of an instance.
fn write_inst(
    out: &mut LineWriter,
    alloc: Global,
    device: Device,
    inst: &Inst,
) -> Result<(), AllocError>
    ensures { OnOk result (out.new ≡ with_end (with_words out.old (inst_words device inst.now))) }
{
    out.word(b"inst")?;
    write_inst_key(out, alloc, device, &inst.key)?;
    out.word(b"rank")?;
    out.dec(u64::from(inst.rank))?;
    out.word(b"need")?;
    out.dec(u64::from(inst.need))?;
    out.end_line()
}

// Writes the lines of instances.
pub(crate) fn write_insts(
    out: &mut LineWriter,
    alloc: Global,
    device: Device,
    insts: &[Inst],
) -> Result<(), AllocError>
    requires { out.old.begun ≡ false }
    ensures { OnOk result (out.new ≡ with_text out.old (flat_map line (map (inst_words device) insts.now))) }
{
    appending_laws();
    for inst in insts {
        write_inst(out, alloc, device, inst)?;
    }
    Ok(())
}

// The number of the instance, from a number on.
fn number_from(insts: &[Inst], from: usize, key: &InstKey) -> Option<usize>
    ensures found { IfSome result (λ j. IsAt insts.now key.now j) }
    ensures none { IfNone result (IsNowhereFrom insts.now key.now from) }
{
    for j in from..insts.len() {
        if insts[j].key == *key {
            return Some(j);
        }
    }
    None
}

// The number of the instance, which must be in the list. The search begins at the guess.
fn number_of(insts: &[Inst], guess: usize, key: &InstKey) -> usize
    requires sorted { IsStrictlySortedBy inst_cmp (inst_keys insts.now) }
    requires there { Contains (inst_keys insts.now) key.now }
    ensures { result ≡ inst_number key.now insts.now }
{
    keys_are_ordered();
    match number_from(insts, guess, key) {
        Some(number) => number,
        None => number_from(insts, 0, key).unwrap_or(0),
    }
}

// Writes the line of a node whose instance has this number.
fn write_node(
    out: &mut LineWriter,
    alloc: Global,
    form: Form,
    number: usize,
    node: &(NodeKey, NodeForm),
) -> Result<(), AllocError>
    ensures { OnOk result (out.new ≡ with_end (with_words out.old (node_words_at form.device form.version number node.now))) }
{
    out.word(b"node")?;
    out.dec(number as u64)?;
    write_point(out, alloc, form, &node.0)?;
    write_form(out, alloc, form, &node.1)?;
    out.end_line()
}

// Writes the lines of nodes.
pub(crate) fn write_nodes(
    out: &mut LineWriter,
    alloc: Global,
    form: Form,
    insts: &[Inst],
    nodes: &[(NodeKey, NodeForm)],
) -> Result<(), AllocError>
    requires begun { out.old.begun ≡ false }
    requires sorted { IsStrictlySortedBy inst_cmp (inst_keys insts.now) }
    requires there { AllByRecursion (Belongs insts.now) (seed_keys nodes.now) }
    ensures { OnOk result (out.new ≡ with_text out.old (flat_map line (map (node_words form.device form.version insts.now) nodes.now))) }
{
    appending_laws();
    let mut guess = 0;
    for node in nodes {
        guess = number_of(insts, guess, &node.0.inst);
        write_node(out, alloc, form, guess, node)?;
    }
    Ok(())
}
