//! The tables by subject. A test reports the first table and row that is wrong.

mod assumption_texts;
mod bank_words;
mod certificates;
mod command_words;
mod said_devices;
mod schedules;
mod second_version;
mod words;

use row_tests::{FirstWrong, tell, tell_fact, tell_row};
use std::alloc::Global;

// Numbers, commands, assumption lists, schedules and certificates.
fn tell_texts(told: &mut FirstWrong, alloc: Global) {
    tell_row(told, "file", words::misread_of_two(alloc));
    tell_row(told, "sink", words::misput_in_pieces(alloc));
    tell_row(told, "line", words::miswritten_line(alloc));
    tell(told, alloc, &words::HEXADECIMAL);
    tell(told, alloc, &words::DECIMAL);
    tell(told, alloc, &command_words::ROWS);
    tell(told, alloc, &command_words::REFUSED);
    tell(told, alloc, &assumption_texts::TEXTS);
    tell(told, alloc, &assumption_texts::ALONE);
    tell(told, alloc, &assumption_texts::TARGETS);
    tell(told, alloc, &schedules::TEXTS);
    tell(told, alloc, &certificates::VERSIONS);
    tell(told, alloc, &certificates::CELLS);
    tell(told, alloc, &said_devices::SAID);
    tell(told, alloc, &said_devices::UNREAD);
    tell(told, alloc, &bank_words::BANKED);
}

// Facts outside the tables.
fn tell_facts(told: &mut FirstWrong, alloc: Global) {
    tell_fact(told, 0, words::are_words());
    tell_fact(told, 1, assumption_texts::are_sixty_four());
    tell_fact(told, 2, schedules::is_within(alloc));
    tell_fact(told, 3, schedules::are_runs(alloc));
}

#[test]
fn each_row_holds(rt: HostRuntime) {
    let alloc = rt.alloc();
    let mut told = FirstWrong { wrong: None };
    tell_texts(&mut told, alloc);
    tell_facts(&mut told, alloc);
    let FirstWrong { wrong } = told;
    assert!(rt; wrong.is_none(), "{wrong:?}");
}
