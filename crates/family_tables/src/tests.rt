//! The tables by subject, and nodes that two of them share. A test reports the first table and row that is wrong.

mod clearness;
mod doors;
mod edges;
mod forms;
mod misfits;
mod nesting;
mod notes;
mod seeds;
mod trials;
mod verdicts;

use row_tests::{FirstWrong, tell, tell_row};
use std::alloc::Global;

// Nesting.
fn tell_nesting(told: &mut FirstWrong, alloc: Global) {
    tell(told, alloc, &nesting::ROWS);
    tell(told, alloc, &notes::ROWS);
    let chain = if notes::is_chain(alloc) {
        None
    } else {
        Some(0)
    };
    tell_row(told, "chain", chain);
}

// Families, verdicts and trials.
fn tell_families(told: &mut FirstWrong, alloc: Global) {
    clearness::clearness_is_met();
    tell(told, alloc, &edges::ROWS);
    tell(told, alloc, &forms::ROWS);
    tell(told, alloc, &verdicts::ROWS);
    tell(told, alloc, &misfits::ROWS);
    tell(told, alloc, &doors::ROWS);
    tell(told, alloc, &trials::ROWS);
}

#[test]
fn each_row_holds(rt: HostRuntime) {
    let alloc = rt.alloc();
    let mut told = FirstWrong { wrong: None };
    tell_nesting(&mut told, alloc);
    tell_families(&mut told, alloc);
    let FirstWrong { wrong } = told;
    assert!(rt; wrong.is_none(), "{wrong:?}");
}
