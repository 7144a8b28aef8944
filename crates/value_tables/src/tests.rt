//! The tables by subject. A test reports the first table and row that is wrong.

mod abstract_arithmetic;
mod arithmetic;
mod devices;
mod enables;
mod keys;
mod offsets;
mod pools;
mod state_rows;
mod states;
mod three_valued;

use row_tests::{FirstWrong, tell, tell_fact};
use std::alloc::Global;

// Bits, places in a frame, and arithmetic.
fn tell_bits(told: &mut FirstWrong, alloc: Global) {
    tell(told, alloc, &three_valued::SUMS);
    tell(told, alloc, &three_valued::LOGIC);
    tell(told, alloc, &three_valued::LATTICE);
    tell(told, alloc, &offsets::TAGS);
    tell(told, alloc, &offsets::CARRY_TAGS);
    tell(told, alloc, &offsets::FRAMES);
    tell(told, alloc, &offsets::CALLS);
    tell(told, alloc, &offsets::BASES);
    tell(told, alloc, &arithmetic::SUMS);
    tell(told, alloc, &arithmetic::BITS);
    tell(told, alloc, &abstract_arithmetic::SUMS);
    tell(told, alloc, &abstract_arithmetic::BITWISE);
    tell(told, alloc, &abstract_arithmetic::WORDS);
    tell(told, alloc, &abstract_arithmetic::PRODUCTS);
}

// Devices, and their enable bits.
fn tell_devices(told: &mut FirstWrong, alloc: Global) {
    tell(told, alloc, &devices::NAMES);
    tell(told, alloc, &devices::PLACED);
    tell(told, alloc, &devices::ADDRESSED);
    tell(told, alloc, &enables::PLACES);
    tell(told, alloc, &enables::WRITES);
    tell(told, alloc, &enables::ADDRESSES);
    tell(told, alloc, &enables::SPLITS);
}

// Keys and states.
fn tell_keys(told: &mut FirstWrong, alloc: Global) {
    tell(told, alloc, &keys::INSTANCES);
    tell(told, alloc, &keys::NODES);
    tell(told, alloc, &keys::EDGES);
    tell(told, alloc, &states::VALUE_JOINS);
    tell(told, alloc, &states::FLAG_JOINS);
    tell(told, alloc, &state_rows::TABLES);
}

// Facts outside the tables.
fn tell_facts(told: &mut FirstWrong, alloc: Global) {
    tell_fact(told, 0, offsets::are_slots(alloc));
    tell_fact(told, 1, keys::is_begin());
    tell_fact(told, 2, states::is_root(alloc));
    tell_fact(told, 3, states::are_untagged());
    tell_fact(told, 4, devices::is_hidden());
}

#[test]
fn each_row_holds(rt: HostRuntime) {
    let alloc = rt.alloc();
    let mut told = FirstWrong { wrong: None };
    tell_bits(&mut told, alloc);
    tell_devices(&mut told, alloc);
    tell_keys(&mut told, alloc);
    tell_facts(&mut told, alloc);
    let FirstWrong { wrong } = told;
    assert!(rt; wrong.is_none(), "{wrong:?}");
}
