//! The words of a node's state.

ghost use Rattle.std.specs.Prelude.{◌≡◌, ◌≤◌, map, OnOk};
ghost use Rattle.text_base.specs.Writing.{with_words};
ghost use Rattle.cert_words.specs.Spelling.{value_word, slot_word};
ghost use Rattle.cert_words.specs.KeySpelling.{register_count, pairs_words, state_words, form_words};

use crate::values::{write_flags, write_slot, write_value};
use abs_state::{AbsByte, AbsState};
use avr_model::device::Device;
use certificate::{Form, Version, hulls_of};
use edge_rules::NodeForm;
use pair_words::write_facts;
use sp_domain::Slot;
use std::alloc::{AllocError, Global};
use text_base::LineWriter;

// Writes values.
fn write_values(
    out: &mut LineWriter,
    version: Version,
    values: &[AbsByte],
) -> Result<(), AllocError>
    ensures { OnOk result (out.new ≡ with_words out.old (map (value_word version) values.now)) }
{
    for value in values {
        write_value(out, version, value)?;
    }
    Ok(())
}

// Writes slots.
fn write_slots(
    out: &mut LineWriter,
    version: Version,
    slots: &[Slot<AbsByte>],
) -> Result<(), AllocError>
    ensures { OnOk result (out.new ≡ with_words out.old (map (slot_word version) slots.now)) }
{
    for slot in slots {
        write_slot(out, version, slot)?;
    }
    Ok(())
}

// Writes the facts on pairs of a state, which only the third version has words for.
fn write_pairs(
    out: &mut LineWriter,
    alloc: Global,
    version: Version,
    state: &AbsState,
) -> Result<(), AllocError>
    ensures { OnOk result (out.new ≡ with_words out.old (pairs_words version state.now.registers state.now.facts)) }
{
    match version {
        Version::One | Version::Two => Ok(()),
        Version::Three => match state.facts.get() {
            Some(facts) => write_facts(out, alloc, &hulls_of(&state.registers), &facts),
            None => Ok(()),
        },
    }
}

// The number of registers of the device: r0 to r31, RAMPZ and EIND.
fn register_count(device: Device) -> usize
    ensures exact { result ≡ register_count device }
    ensures most { result ≤ 34 }
{
    if device.has_eijmp() {
        34
    } else if device.has_elpm() {
        33
    } else {
        32
    }
}

// Writes a state.
fn write_state(
    out: &mut LineWriter,
    alloc: Global,
    form: Form,
    state: &AbsState,
) -> Result<(), AllocError>
    ensures { OnOk result (out.new ≡ with_words out.old (state_words form.device form.version state.now)) }
{
    write_values(
        out,
        form.version,
        &state.registers[..register_count(form.device)],
    )?;
    write_flags(out, &state.flags)?;
    write_pairs(out, alloc, form.version, state)?;
    write_slots(out, form.version, state.slots.as_slice())?;
    Ok(())
}

// Writes a state, or `from` and the number of the node that it comes from.
pub(crate) fn write_form(
    out: &mut LineWriter,
    alloc: Global,
    form: Form,
    node_form: &NodeForm,
) -> Result<(), AllocError>
    ensures { OnOk result (out.new ≡ with_words out.old (form_words form.device form.version node_form.now)) }
{
    match node_form {
        NodeForm::State(state) => write_state(out, alloc, form, state.get()),
        NodeForm::From(from) => {
            out.word(b"from")?;
            out.dec(u64::from(*from))
        }
    }
}
