//! The causes at each word at which a step may be flagged.

ghost use Rattle.std.specs.Prelude.{ℕ, ◌+◌, ◌≡◌, ◌≤◌, ◌↔◌, ◌||◌, true, length, Contains, IfOk};
ghost use Rattle.std.specs.List.Sorted.{IsStrictlySortedBy};
ghost use Rattle.std.specs.Ordering.{nat_cmp};
ghost use Rattle.avr_model.specs.Devices.{device_of, guarded_end, size_of};
ghost use Rattle.avr_model.specs.Step as steps;
ghost use Rattle.certificate.specs.Valid.{family_of};
ghost use Rattle.clear_laws.specs.Clear.{MayBeFlagged};
ghost use Rattle.clear_laws.specs.Places.{IsPlaceOf};
ghost use Rattle.store_clear.specs.Conditions.{HasConditionsLeft};
ghost use Rattle.store_clear.specs.Takes.{AreMarkedBeside};
ghost use Rattle.store_clear.specs.Causing.{may_happen, ArePlacesOf, IsProtectedWrite, MayAllBeFlagged};
ghost use Rattle.store_clear.specs.AtSites.{IsSiteChain, IsProtectedThere, HappensThere};
ghost use Rattle.store_clear.specs.ByWord.{AreLinked};
ghost use Rattle.store_clear.specs.Pointers.{AreAllNever};
ghost use Rattle.store_clear.specs.Numbered.{IsEveryNode};
ghost use Rattle.family_edges.specs.Tasks.{task_of};
ghost use Rattle.store_clear.specs.Stores.{task_in, store_of};

use crate::by_word::{ByWord, by_word};
use crate::guards::Guard;
use crate::listing::ListedNodes;
use crate::moving::may_move;
use crate::pointers::{EveryNode, pointer_at};
use crate::store::GivenStore;
use crate::words::addresses;
use crate::writes::{may_write_live, may_write_protected};
use avr_model::instruction::Instr;
use avr_model::listed::Listed;
use certificate::Certificate;
use clear_laws::FlaggedPlace;
use clear_laws::slots::Condition;
use family_edges::Task;
use node_keys::NodeKey;
use std::alloc::AllocError;

// A word with its instruction, and its nodes that aren't clear: the first, and by the number of each the next.
#[derive(Clone, Copy)]
struct WordSite<'a> {
    pc: u32,
    instr: &'a Instr,
    first: usize,
    later: &'a [usize],
}

// Marks the addresses that a store may write and that are flagged as protected.
fn mark_addresses(store: &GivenStore<'_, '_>, marks: &mut [bool])
    requires { length marks.old ≡ guarded_end (device_of store.now.flash.now) + 1 }
    ensures { AreMarkedBeside (IsProtectedWrite (task_in store.now) (store_of store.now)) marks.old marks.new }
{
    for address in 0..store.flash.device().guarded_end() + 1 {
        if may_write_protected(store, address) {
            marks[usize::from(address)] = true;
        }
    }
}

// Marks the addresses of all nodes there that aren't clear.
fn mark_nodes(task: &Task<'_>, told: &ListedNodes<'_>, site: &WordSite<'_>, marks: &mut [bool])
    requires same { length told.now.conditions.now ≡ length told.now.nodes.now }
    requires chain { IsSiteChain told.now site.now }
    requires all { length marks.old ≡ guarded_end (device_of task.now.flash.now) + 1 }
    ensures { AreMarkedBeside (IsProtectedThere (task_of task.now) told.now site.now) marks.old marks.new }
{
    let _count = told.nodes.count();
    let mut at = site.first;
    while at < told.conditions.len() {
        let state = told.nodes.state(at);
        let store = GivenStore {
            flash: task.flash,
            assumptions: task.assumptions,
            pc: site.pc,
            state,
            instr: site.instr,
            guard: Guard::of(task, site.pc, state, site.instr),
        };
        mark_addresses(&store, marks);
        at = site.later[at];
    }
}

// The protected addresses that stores at some node there, which isn't clear, may write; ascending.
fn protected_of(
    task: &Task<'_>,
    told: &ListedNodes<'_>,
    site: &WordSite<'_>,
) -> Result<Listed<u16>, AllocError>
    requires same { length told.now.conditions.now ≡ length told.now.nodes.now }
    requires chain { IsSiteChain told.now site.now }
    ensures exact { IfOk result (λ list. (a : ℕ) → Contains list a ↔ IsProtectedThere (task_of task.now) told.now site.now a) }
    ensures ascending { IfOk result (λ list. IsStrictlySortedBy nat_cmp list) }
{
    let count = usize::from(task.flash.device().guarded_end()) + 1;
    let mut marks = vec![in task.alloc; false; count]?;
    mark_nodes(task, told, site, marks.as_mut_slice());
    addresses(task.alloc, &marks)
}

// What else may happen at a node than a write of a protected address.
#[derive(Clone, Copy)]
enum Other {
    // A store may write a pushed byte.
    Live,
    // A moving bit may be set.
    Moves,
}

// Whether this may happen at a node.
fn may_happen(
    task: &Task<'_>,
    bound: u16,
    key: &NodeKey,
    store: &GivenStore<'_, '_>,
    other: Other,
) -> bool
    requires small { bound ≤ size_of (device_of task.now.flash.now) }
    requires same { task_in store.now ≡ task_of task.now }
    ensures { result ≡ may_happen (task_of task.now) bound other store.now.pc store.now.instr.now (record { key = key.now; state = store.now.state.now }) }
{
    match other {
        Other::Live => may_write_live(task, bound, key, store),
        Other::Moves => may_move(task, key, store.state, store.instr),
    }
}

// Whether this may happen at some node there that isn't clear.
fn happens_at(
    task: &Task<'_>,
    bound: u16,
    told: &ListedNodes<'_>,
    site: &WordSite<'_>,
    other: Other,
) -> bool
    requires same { length told.now.conditions.now ≡ length told.now.nodes.now }
    requires chain { IsSiteChain told.now site.now }
    requires small { bound ≤ size_of (device_of task.now.flash.now) }
    ensures { (result ≡ true) ↔ HappensThere (task_of task.now) bound other told.now site.now }
{
    let _count = told.nodes.count();
    let mut at = site.first;
    while at < told.conditions.len() {
        let (key, state) = (told.nodes.key(at), told.nodes.state(at));
        let store = GivenStore {
            flash: task.flash,
            assumptions: task.assumptions,
            pc: site.pc,
            state,
            instr: site.instr,
            guard: Guard::of(task, site.pc, state, site.instr),
        };
        if may_happen(task, bound, key, &store, other) {
            return true;
        }
        at = site.later[at];
    }
    false
}

// Whether the instruction transfers by a pointer or calls: such a node that isn't clear may go to an unlisted word, or calls one that has
// a `recur` line.
fn is_transfer(instr: &Instr) -> bool
    ensures { result ≡ (steps.is_indirect instr.now || steps.is_call instr.now) }
{
    match instr {
        Instr::Ijmp | Instr::Icall | Instr::Eijmp | Instr::Eicall => true,
        Instr::Call(_) | Instr::Rcall(_) => true,
        _ => false,
    }
}

// The causes at a word at which some node isn't clear, and the numbers of its pointer.
fn place_at(
    task: &Task<'_>,
    certificate: &Certificate,
    told: &ListedNodes<'_>,
    links: &ByWord,
    every: &EveryNode<'_>,
    pc: u32,
) -> Result<FlaggedPlace, AllocError>
    requires linked { AreLinked told.now.nodes.now told.now.conditions.now 0 links.now.first.items links.now.later.items }
    requires every { IsEveryNode told.now.nodes.now every.now }
    requires small { certificate.now.bound ≤ size_of (device_of task.now.flash.now) }
    requires told { HasConditionsLeft (task_of task.now) certificate.now told.now.nodes.now told.now.conditions.now }
    requires site { MayBeFlagged (task_of task.now) (family_of certificate.now told.now.nodes.now) pc }
    ensures word { IfOk result (λ place. place.word ≡ pc) }
    ensures exact { IfOk result (λ p. IsPlaceOf (task_of task.now) (family_of certificate.now told.now.nodes.now) p) }
{
    match task.flash.instruction(pc) {
        None => Ok(FlaggedPlace {
            word: pc,
            protected: Listed::empty(task.alloc),
            live: false,
            transfer: false,
            moves: false,
            pointer: None,
        }),
        Some(instr) => {
            let _count = told.nodes.count();
            let site = WordSite {
                pc,
                instr: &instr,
                first: links.first[pc as usize],
                later: links.later.as_slice(),
            };
            let protected = protected_of(task, told, &site)?;
            let bound = certificate.bound();
            let live = happens_at(task, bound, told, &site, Other::Live);
            let moves = happens_at(task, bound, told, &site, Other::Moves);
            Ok(FlaggedPlace {
                word: pc,
                protected,
                live,
                transfer: is_transfer(&instr),
                moves,
                pointer: pointer_at(every, pc, &instr),
            })
        }
    }
}

// The causes at each of these words; each has a node that isn't clear.
fn places_by(
    task: &Task<'_>,
    certificate: &Certificate,
    told: &ListedNodes<'_>,
    links: &ByWord,
    every: &EveryNode<'_>,
    sites: &[u32],
) -> Result<Listed<FlaggedPlace>, AllocError>
    requires linked { AreLinked told.now.nodes.now told.now.conditions.now 0 links.now.first.items links.now.later.items }
    requires every { IsEveryNode told.now.nodes.now every.now }
    requires small { certificate.now.bound ≤ size_of (device_of task.now.flash.now) }
    requires told { HasConditionsLeft (task_of task.now) certificate.now told.now.nodes.now told.now.conditions.now }
    requires sites { MayAllBeFlagged (task_of task.now) (family_of certificate.now told.now.nodes.now) sites.now }
    ensures { IfOk result (ArePlacesOf (task_of task.now) (family_of certificate.now told.now.nodes.now) sites.now) }
{
    let mut list = Listed::empty(task.alloc);
    for site in sites {
        let place = place_at(task, certificate, told, links, every, *site)?;
        list.push(place)?;
    }
    Ok(list)
}

// The same, with the nodes that aren't clear linked by their words first.
fn places_among(
    task: &Task<'_>,
    certificate: &Certificate,
    told: &ListedNodes<'_>,
    every: &EveryNode<'_>,
    sites: &[u32],
) -> Result<Listed<FlaggedPlace>, AllocError>
    requires every { IsEveryNode told.now.nodes.now every.now }
    requires small { certificate.now.bound ≤ size_of (device_of task.now.flash.now) }
    requires told { HasConditionsLeft (task_of task.now) certificate.now told.now.nodes.now told.now.conditions.now }
    requires sites { MayAllBeFlagged (task_of task.now) (family_of certificate.now told.now.nodes.now) sites.now }
    ensures { IfOk result (ArePlacesOf (task_of task.now) (family_of certificate.now told.now.nodes.now) sites.now) }
{
    let links = by_word(task.alloc, told)?;
    let list = places_by(task, certificate, told, &links, every, sites);
    drop(links);
    list
}

// The same, with all nodes linked by their words, by conditions that leave none out.
fn places_with(
    task: &Task<'_>,
    certificate: &Certificate,
    told: &ListedNodes<'_>,
    conditions: &[Condition],
    sites: &[u32],
) -> Result<Listed<FlaggedPlace>, AllocError>
    requires never { AreAllNever told.now.nodes.now conditions.now }
    requires small { certificate.now.bound ≤ size_of (device_of task.now.flash.now) }
    requires told { HasConditionsLeft (task_of task.now) certificate.now told.now.nodes.now told.now.conditions.now }
    requires sites { MayAllBeFlagged (task_of task.now) (family_of certificate.now told.now.nodes.now) sites.now }
    ensures { IfOk result (ArePlacesOf (task_of task.now) (family_of certificate.now told.now.nodes.now) sites.now) }
{
    let all = ListedNodes {
        nodes: told.nodes,
        conditions,
    };
    let links = by_word(task.alloc, &all)?;
    let every = EveryNode {
        told: all,
        links: &links,
    };
    let list = places_among(task, certificate, told, &every, sites);
    drop(links);
    list
}

// The causes at each of these words, each of which has a node that isn't clear, and the numbers of pointers, for which each node counts.
pub(crate) fn places_at(
    task: &Task<'_>,
    certificate: &Certificate,
    told: &ListedNodes<'_>,
    sites: &[u32],
) -> Result<Listed<FlaggedPlace>, AllocError>
    requires small { certificate.now.bound ≤ size_of (device_of task.now.flash.now) }
    requires told { HasConditionsLeft (task_of task.now) certificate.now told.now.nodes.now told.now.conditions.now }
    requires sites { MayAllBeFlagged (task_of task.now) (family_of certificate.now told.now.nodes.now) sites.now }
    ensures { IfOk result (ArePlacesOf (task_of task.now) (family_of certificate.now told.now.nodes.now) sites.now) }
{
    let conditions = vec![in task.alloc; Condition::Never; told.conditions.len()]?;
    let list = places_with(task, certificate, told, conditions.as_slice(), sites);
    drop(conditions);
    list
}
