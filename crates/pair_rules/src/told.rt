//! The interval of a pair after an instruction.

use avr_model::instruction::Pair;
use pair_domain::Interval;

/// The interval of one pair after an instruction. Pair n is registers 2n and 2n + 1.
#[derive(Clone, Copy)]
pub enum Told {
    /// No information.
    Nothing,
    /// This pair lies in this interval, copied from another pair or its own.
    Kept(Pair, Interval),
    /// This pair lies in this interval, which is computed and so is widened to thresholds.
    Computed(Pair, Interval),
}
