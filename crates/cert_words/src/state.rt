//! The words of a node's state.

ghost use Rattle.std.specs.Prelude.{◌≡◌, ◌<◌, ◌∷◌, [], take, IfOk};
ghost use Rattle.std.specs.Option.{option_map};
ghost use Rattle.node_keys.specs.Keys.{offset_of, is_root};
ghost use Rattle.cert_words.specs.Reading.{value_in, slot_in};
ghost use Rattle.line_reading.specs.Reading.{word_by};
ghost use Rattle.abs_state.specs.Banks.{absent};
ghost use Rattle.cert_words.specs.KeyReading.{words_from, bank_at, registers_behind, flags_at, state_behind, pairs_at, form_at};

use crate::keys::is_root;
use crate::values::{bank_of, carry_of, flags_of, has_register, slot_of, value_of};
use abs_state::{AbsByte, AbsFlags, AbsState, Registers};
use avr_model::device::{EIND, RAMPZ};
use bit_domain::TriByte;
use certificate::{Form, Version, hulls_of};
use edge_rules::{HeldState, NodeForm};
use line_reading::dec_word;
use node_keys::NodeKey;
use pair_domain::Facts;
use pair_words::facts_of;
use sp_domain::{Slots, Tag};
use std::alloc::{AllocError, Global};
use text_base::Words;

// The value of the next word.
fn next_value(form: Form, words: &mut Words<'_>, root: bool) -> Option<AbsByte>
    ensures { option_map (λ v. (v, words.new)) result ≡ word_by (value_in form.device form.version root) words.old }
{
    value_of(form, words.next()?, root)
}

// r0 to r31, of which the first has this value, before two others.
fn first_values(form: Form, words: &mut Words<'_>, root: bool, first: AbsByte) -> Option<Registers>
    ensures { option_map (λ r. (take 32 r, words.new)) result ≡ words_from (value_in form.device form.version root) (first ∷ []) 31 words.old }
{
    let mut registers = [first; 34];
    for r in 1..32 {
        let Some(value) = next_value(form, words, root) else {
            return None;
        };
        registers[r] = value;
    }
    Some(registers)
}

// The value of a register that the device lacks.
fn absent(root: bool, register: u8) -> AbsByte
    ensures { result ≡ absent root register }
{
    let tag = if root {
        Tag::None
    } else {
        Tag::Entry(register)
    };
    AbsByte::of_bits(tag, TriByte::of(0))
}

// RAMPZ or EIND; one that the device lacks has no word.
#[tactic(auto, unfolding(crate::specs::KeyReading::bank_at))]
fn next_bank(form: Form, words: &mut Words<'_>, root: bool, register: u16) -> Option<AbsByte>
    requires { register < 256 }
    ensures { option_map (λ v. (v, words.new)) result ≡ bank_at form.device form.version root register words.old }
{
    if !has_register(form.device, register) {
        return Some(absent(root, register as u8));
    }
    bank_of(form, words.next()?, root, register)
}

// All registers, of which the first has this value.
#[tactic(auto, unfolding(crate::specs::KeyReading::registers_behind))]
fn registers_of(form: Form, words: &mut Words<'_>, root: bool, first: AbsByte) -> Option<Registers>
    ensures { option_map (λ r. (r, words.new)) result ≡ registers_behind form.device form.version root first words.old }
{
    let Some(mut registers) = first_values(form, words, root, first) else {
        return None;
    };
    let Some(rampz) = next_bank(form, words, root, RAMPZ) else {
        return None;
    };
    let Some(eind) = next_bank(form, words, root, EIND) else {
        return None;
    };
    registers[usize::from(RAMPZ)] = rampz;
    registers[usize::from(EIND)] = eind;
    Some(registers)
}

// This many slots.
fn slots_of(
    alloc: Global,
    form: Form,
    words: &mut Words<'_>,
    root: bool,
    count: u16,
) -> Result<Option<Slots<AbsByte>>, AllocError>
    ensures { IfOk result (λ o. option_map (λ s. (s, words.new)) o ≡ words_from (slot_in form.device form.version root) [] count words.old) }
{
    let mut slots = Slots::new(alloc);
    for _ in 0..count {
        let Some(slot) = slot_of(form, words, root) else {
            return Ok(None);
        };
        slots.push(slot)?;
    }
    Ok(Some(slots))
}

// The flags and the carry tag.
#[tactic(auto, unfolding(crate::specs::KeyReading::flags_at))]
fn both_flags_of(words: &mut Words<'_>, version: Version, root: bool) -> Option<AbsFlags>
    ensures { option_map (λ f. (f, words.new)) result ≡ flags_at version root words.old }
{
    let (Some(flags), Some(carry)) = (words.next(), words.next()) else {
        return None;
    };
    let (Some((entry, bits)), Some(carry)) = (flags_of(flags, root), carry_of(carry, version, root))
    else {
        return None;
    };
    Some(AbsFlags { entry, bits, carry })
}

// The facts on pairs of these registers, which only the third version has words for.
fn pairs_of(
    alloc: Global,
    words: &mut Words<'_>,
    version: Version,
    registers: &Registers,
) -> Result<Option<Facts>, AllocError>
    ensures { IfOk result (λ o. option_map (λ f. (f, words.new)) o ≡ pairs_at version registers.now words.old) }
{
    match version {
        Version::One | Version::Two => Ok(Some(Facts::none())),
        Version::Three => match facts_of(words, &hulls_of(registers)) {
            Some(facts) => Ok(Some(Facts::new(alloc, facts)?)),
            None => Ok(None),
        },
    }
}

// The state of the node of this key, whose first register has this value.
#[tactic(auto, unfolding(crate::specs::KeyReading::state_behind))]
fn state_of(
    alloc: Global,
    form: Form,
    words: &mut Words<'_>,
    key: &NodeKey,
    first: AbsByte,
) -> Result<Option<AbsState>, AllocError>
    ensures { IfOk result (λ o. option_map (λ s. (s, words.new)) o ≡ state_behind form.device form.version (is_root key.now.inst.kind) (offset_of key.now.sp) first words.old) }
{
    let root = is_root(key.inst.kind);
    let Some(registers) = registers_of(form, words, root, first) else {
        return Ok(None);
    };
    let Some(flags) = both_flags_of(words, form.version, root) else {
        return Ok(None);
    };
    let Some(facts) = pairs_of(alloc, words, form.version, &registers)? else {
        return Ok(None);
    };
    let Some(slots) = slots_of(alloc, form, words, root, key.offset())? else {
        return Ok(None);
    };
    Ok(Some(AbsState {
        registers,
        flags,
        slots,
        facts,
    }))
}

/// The state of node number `at`, which has this key, by its next words in a certificate of this form: a state, or `from` and the number
/// of an earlier node. None exactly if they are the words of neither.
#[tactic(auto, unfolding(crate::specs::KeyReading::form_at, crate::specs::KeyReading::from_behind))]
pub fn node_form_of(
    alloc: Global,
    form: Form,
    words: &mut Words<'_>,
    key: &NodeKey,
    at: usize,
) -> Result<Option<NodeForm>, AllocError>
    ensures { IfOk result (λ o. option_map (λ f. (f, words.new)) o ≡ form_at form.device form.version (is_root key.now.inst.kind) (offset_of key.now.sp) at words.old) }
{
    let Some(word) = words.next() else {
        return Ok(None);
    };
    if word == b"from".as_slice() {
        return match dec_word(words, 65_535) {
            Some(from) if (from as usize) < at => Ok(Some(NodeForm::From(from as u32))),
            _ => Ok(None),
        };
    }
    let Some(first) = value_of(form, word, is_root(key.inst.kind)) else {
        return Ok(None);
    };
    match state_of(alloc, form, words, key, first)? {
        Some(state) => Ok(Some(NodeForm::State(HeldState::new(alloc, state)?))),
        None => Ok(None),
    }
}
