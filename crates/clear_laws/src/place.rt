//! A word at which a step may be flagged, with its causes.

use crate::stores::PointerNumbers;
use avr_model::listed::Listed;

/// A word address at which a step may be flagged, with the causes.
#[derive(Drop)]
pub struct FlaggedPlace {
    /// The word address.
    pub word: u32,
    /// The protected data addresses that a store may write there, not listed by any line; ascending.
    pub protected: Listed<u16>,
    /// Whether a store may write a pushed byte.
    pub live: bool,
    /// Whether an indirect transfer may go to a word that its `jump` line does not list, or a call enters a word that has a `recur` line.
    pub transfer: bool,
    /// Whether a moving bit may be set.
    pub moves: bool,
    /// The numbers that the pointer of a store, jump or call may have there, by all nodes; None without a pointer or a number.
    pub pointer: Option<PointerNumbers>,
}
