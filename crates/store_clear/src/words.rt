//! The nodes that aren't clear: the first of them, and their words.

ghost use Rattle.std.specs.Prelude.{◌≡◌, ◌≤◌, length, IfOk};
ghost use Rattle.avr_model.specs.Image.{WORDS};
ghost use Rattle.store_clear.specs.Conditions.{IsFirstLeft, AreWordsMarked, places_of};
ghost use Rattle.store_clear.specs.Causing.{AreSitesTold};

use crate::listing::{ListedNodes, is_discharged};
use avr_model::device::WORDS;
use avr_model::listed::Listed;
use clear_laws::slots::Condition;
use std::alloc::{AllocError, Global};

// The number of the first node with a condition left.
pub(crate) fn first_unclear(conditions: &[Condition]) -> Option<usize>
    ensures { IsFirstLeft conditions.now result }
{
    for at in 0..conditions.len() {
        if !is_discharged(conditions[at]) {
            return Some(at);
        }
    }
    None
}

// Marks the words of nodes with a condition left.
fn mark_words(told: &ListedNodes<'_>, marks: &mut [bool])
    requires same { length told.now.conditions.now ≡ length told.now.nodes.now }
    requires all { length marks.old ≡ WORDS }
    ensures { AreWordsMarked told.now.nodes.now told.now.conditions.now (length told.now.conditions.now) marks.old marks.new }
{
    let _count = told.nodes.count();
    for at in 0..told.conditions.len() {
        if !is_discharged(told.conditions[at]) {
            marks[told.nodes.key(at).pc as usize] = true;
        }
    }
}

// The places of the marks of words, ascending.
pub(crate) fn places(alloc: Global, marks: &[bool]) -> Result<Listed<u32>, AllocError>
    requires { length marks.now ≤ WORDS }
    ensures { IfOk result (λ places. places ≡ places_of marks.now) }
{
    let mut places = Listed::empty(alloc);
    for at in 0..marks.len() {
        if marks[at] {
            places.push(at as u32)?;
        }
    }
    Ok(places)
}

// The places of the marks of data addresses, ascending.
pub(crate) fn addresses(alloc: Global, marks: &[bool]) -> Result<Listed<u16>, AllocError>
    requires { length marks.now ≤ 65536 }
    ensures { IfOk result (λ addresses. addresses ≡ places_of marks.now) }
{
    let mut addresses = Listed::empty(alloc);
    for at in 0..marks.len() {
        if marks[at] {
            addresses.push(at as u16)?;
        }
    }
    Ok(addresses)
}

// The words at which some node isn't clear, ascending and without repeats.
pub(crate) fn sites_of(alloc: Global, told: &ListedNodes<'_>) -> Result<Listed<u32>, AllocError>
    requires { length told.now.conditions.now ≡ length told.now.nodes.now }
    ensures { IfOk result (λ sites. AreSitesTold told.now.nodes.now told.now.conditions.now sites) }
{
    let mut marks = vec![in alloc; false; WORDS as usize]?;
    mark_words(told, marks.as_mut_slice());
    places(alloc, &marks)
}
