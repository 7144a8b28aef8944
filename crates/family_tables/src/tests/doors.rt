//! What is said of the certificate that is found for a small firmware, worked by hand: which nodes are clear, where a step may be flagged and
//! for what, which vectors may be taken though they are assumed never to be, and the deepest chain.

ghost use Rattle.std.specs.Prelude.{[]};
ghost use Rattle.certificate.specs.Valid.{IsSound};
ghost use Rattle.family_edges.specs.Tasks.{task_of};
ghost use Rattle.local_rules.specs.Site.{bare};

use super::edges::flash_on;
use avr_model::device::Device;
use certificate::Certificate;
use chain_explain::{Explanation, Part, PartPoint, explain};
use family_edges::Task;
use fixpoint::solve;
use flash_image::Flash;
use row_tests::WorkedRow;
use std::alloc::Global;
use store_clear::{
    ClearVerdict, FlaggedPlace, clear_sites, flagged_places, flagged_sites, never_takes,
};
use vector_table::{Assumptions, Entry};

// The one line of an assumption list, or none.
#[derive(Clone, Copy)]
enum Line {
    Nothing,
    // The site at word 2 counts as unfixed.
    Free,
    // The vector at word 2 is never taken.
    Never,
}

// A word at which a step may be flagged, the protected addresses that it may write, and whether it may write a pushed byte.
type Flagged = (u32, &'static [u16], bool);

// A word of the deepest chain, the bytes that it adds, and the path to it.
type Link = (u32, u16, &'static [u32]);

/// A firmware, and what is due.
pub struct Row {
    image: &'static [u8],
    line: Line,
    // The least node that isn't clear, with its word.
    unclear: Option<(u32, u32)>,
    flagged: &'static [Flagged],
    nevers: &'static [u32],
    chain: &'static [Link],
}

fn is_verdict(verdict: ClearVerdict, due: Option<(u32, u32)>) -> bool {
    match verdict {
        ClearVerdict::Clear => due.is_none(),
        ClearVerdict::Unclear(node, pc) => due == Some((node, pc)),
    }
}

// Whether its nodes are clear as is due, without assumptions.
fn is_clear(alloc: Global, flash: &Flash, certificate: &Certificate, row: &Row) -> bool
    requires { IsSound (bare flash.now) certificate.now }
{
    match clear_sites(alloc, flash, certificate) {
        Ok(verdict) => is_verdict(verdict, row.unclear),
        Err(_) => false,
    }
}

fn are_words(sites: &[u32], due: &[Flagged]) -> bool {
    if sites.len() != due.len() {
        return false;
    }
    for at in 0..due.len() {
        if sites[at] != due[at].0 {
            return false;
        }
    }
    true
}

fn is_place(place: &FlaggedPlace, due: &Flagged) -> bool {
    place.word == due.0
        && place.protected.as_slice() == due.1
        && place.live == due.2
        && !place.transfer
}

fn are_places(places: &[FlaggedPlace], due: &[Flagged]) -> bool {
    if places.len() != due.len() {
        return false;
    }
    for at in 0..due.len() {
        if !is_place(&places[at], &due[at]) {
            return false;
        }
    }
    true
}

// Whether its words are flagged as is due.
fn is_flagged(task: &Task<'_>, certificate: &Certificate, row: &Row) -> bool
    requires { IsSound (task_of task.now) certificate.now }
{
    let sites = match flagged_sites(task, certificate) {
        Ok(sites) => are_words(sites.as_slice(), row.flagged),
        Err(_) => false,
    };
    let places = match flagged_places(task, certificate) {
        Ok(places) => are_places(places.as_slice(), row.flagged),
        Err(_) => false,
    };
    sites && places
}

// Whether these vectors may be taken.
fn is_taken(task: &Task<'_>, certificate: &Certificate, row: &Row) -> bool
    requires { IsSound (task_of task.now) certificate.now }
{
    match never_takes(task, certificate) {
        Ok(nevers) => nevers.as_slice() == row.nevers,
        Err(_) => false,
    }
}

fn is_link(part: &Part, due: &Link) -> bool {
    match &part.point {
        PartPoint::Node(pc, walk) => {
            *pc == due.0 && part.adds == due.1 && walk.as_slice() == due.2
        }
        PartPoint::Recur(_) => false,
    }
}

fn is_chain(found: &Explanation, due: &[Link]) -> bool {
    if found.count() != due.len() {
        return false;
    }
    for at in 0..due.len() {
        if !is_link(found.part(at), &due[at]) {
            return false;
        }
    }
    true
}

// Whether its deepest chain is so, and as deep as the bound.
fn is_explained(task: &Task<'_>, certificate: &Certificate, row: &Row) -> bool
    requires { IsSound (task_of task.now) certificate.now }
{
    match explain(task, certificate) {
        Ok(found) => is_chain(&found, row.chain) && found.least() == certificate.bound(),
        Err(_) => false,
    }
}

fn is_under(alloc: Global, flash: &Flash, list: &Assumptions, row: &Row) -> bool {
    let task = Task {
        alloc,
        flash,
        assumptions: list,
    };
    match solve(&task, None) {
        Ok(certificate) => {
            is_flagged(&task, &certificate, row)
                && is_taken(&task, &certificate, row)
                && is_explained(&task, &certificate, row)
        }
        Err(_) => false,
    }
}

fn is_without(alloc: Global, flash: &Flash, row: &Row) -> bool {
    let none = Assumptions::empty(alloc);
    let task = Task {
        alloc,
        flash,
        assumptions: &none,
    };
    match solve(&task, None) {
        Ok(certificate) => is_clear(alloc, flash, &certificate, row),
        Err(_) => false,
    }
}

fn is_on(alloc: Global, flash: &Flash, row: &Row) -> bool {
    let mut list = Assumptions::empty(alloc);
    match row.line {
        Line::Nothing => is_without(alloc, flash, row) && is_under(alloc, flash, &list, row),
        Line::Free => { list.push(Entry::Free(2)).is_ok() && is_under(alloc, flash, &list, row) }
        Line::Never => { list.push(Entry::Never(2)).is_ok() && is_under(alloc, flash, &list, row) }
    }
}

impl WorkedRow for Row {
    fn holds(&self, alloc: Global) -> bool {
        match flash_on(alloc, Device::M328, self.image) {
            Some(flash) => is_on(alloc, &flash, self),
            None => false,
        }
    }
}

pub static ROWS: [(&str, &[Row]); 1] = [(
    "doors",
    &[
        // rcall to word 2, which returns; rjmp to itself
        Row {
            image: &[0x01, 0xD0, 0xFF, 0xCF, 0x08, 0x95],
            line: Line::Nothing,
            unclear: None,
            flagged: &[],
            nevers: &[],
            chain: &[(0, 2, &[0]), (2, 0, &[2])],
        },
        // push r0; push r0; sts onto the second of them; rjmp to itself
        Row {
            image: &[0x0F, 0x92, 0x0F, 0x92, 0x00, 0x92, 0xFE, 0x08, 0xFF, 0xCF],
            line: Line::Nothing,
            unclear: Some((2, 2)),
            flagged: &[(2, &[], true)],
            nevers: &[],
            chain: &[(2, 2, &[0, 1, 2])],
        },
        // ldi r26, 0x10; ldi r27, 0; st X, r0, which is r16; rjmp to itself
        Row {
            image: &[0xA0, 0xE1, 0xB0, 0xE0, 0x0C, 0x92, 0xFF, 0xCF],
            line: Line::Free,
            unclear: None,
            flagged: &[(2, &[0x10], false)],
            nevers: &[],
            chain: &[(0, 0, &[0])],
        },
        // rjmp to word 4, where vector 2 and I are enabled; rjmp to itself
        Row {
            image: &[
                0x03, 0xC0, 0x00, 0x00, 0x18, 0x95, 0x00, 0x00, 0xE8, 0x9A, 0x78, 0x94, 0xFF, 0xCF,
            ],
            line: Line::Never,
            unclear: None,
            flagged: &[],
            nevers: &[2],
            chain: &[(0, 0, &[0])],
        },
        // the same where the vector, which returns, may be taken
        Row {
            image: &[
                0x03, 0xC0, 0x00, 0x00, 0x18, 0x95, 0x00, 0x00, 0xE8, 0x9A, 0x78, 0x94, 0xFF, 0xCF,
            ],
            line: Line::Nothing,
            unclear: None,
            flagged: &[],
            nevers: &[],
            chain: &[(6, 2, &[0, 4, 5, 6, 6]), (2, 0, &[2])],
        },
    ],
)];
