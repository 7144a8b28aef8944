//! Which nodes of a certificate may flag a step: the least of them, and the words of all, with the causes at each word. `aims` to `writes`
//! have the addresses of one node's store, and the slots that it requires to hold no live byte. `reach` and `spreading` follow slots along
//! edges. `discharging` and `listing` find the nodes whose requirements hold. `pointers` has the numbers of pointers. `words` to `causes` collect words and causes. Source: own.
#![tactic(auto)]

mod aims;
mod by_word;
mod calls;
mod causes;
pub mod clearing;
mod discharging;
mod guards;
mod listing;
mod moving;
mod need;
mod numbers;
mod pointers;
mod reach;
mod spreading;
mod store;
mod takes;
mod words;
mod writes;

pub use clear_laws::{ClearVerdict, FlaggedPlace};
pub use clearing::{
    clear_family, clear_sites, flagged_places, flagged_places_in, flagged_sites, flagged_sites_in,
    never_takes, never_takes_in,
};
