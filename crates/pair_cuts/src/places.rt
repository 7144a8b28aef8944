//! Cuts of one register or one pair of a state.

ghost use Rattle.std.specs.Prelude.{◌≡◌, ◌<◌, slice_set};
ghost use Rattle.pair_domain.specs.Narrow.{narrow};
ghost use Rattle.abs_state.specs.Values as abs_values;
ghost use Rattle.pair_cuts.specs.Places.{known_or_nothing, range_at, narrow_at, narrow_to};
ghost use Rattle.abs_state.specs.PairBytes.{left_in};
ghost use Rattle.pair_cuts.specs.Bytes.{bytes_at, set_pair, put, byte_left};

use abs_state::{AbsByte, AbsState, PairBytes, Registers};
use pair_domain::facts::interval_at;
use pair_domain::{Interval, PairFacts};

/// The place that a flag tag names. Source: own.
#[derive(Clone, Copy)]
pub enum CutPlace {
    /// No register.
    Neither,
    /// This register, 0 to 31.
    Byte(u8),
    /// The pair of this even register, 0 to 30.
    Pair(u8),
}

// The facts on pairs; none known if pairs are not followed.
pub(crate) fn facts_of(state: &AbsState) -> PairFacts
    ensures { result ≡ known_or_nothing state.now.facts }
{
    match state.facts.get() {
        Some(facts) => facts,
        None => PairFacts::nothing(),
    }
}

// The value of register `r`; any byte if there is no such register.
pub(crate) fn value_at(registers: &Registers, r: u8) -> AbsByte
    ensures { result ≡ abs_values.value_at registers.now r }
{
    let at = usize::from(r);
    if at < 34 {
        registers[at]
    } else {
        AbsByte::unknown()
    }
}

// The numbers that a place may hold.
pub(crate) fn range_at(state: &AbsState, place: CutPlace) -> Interval
    ensures { result ≡ range_at state.now place }
{
    match place {
        CutPlace::Neither => Interval::whole(),
        CutPlace::Byte(r) => {
            let value = value_at(&state.registers, r);
            Interval {
                low: u16::from(value.low),
                high: u16::from(value.high),
            }
        }
        CutPlace::Pair(r) => {
            let facts = facts_of(state);
            interval_at(&facts.intervals, r / 2)
        }
    }
}

// Pair `2 * n`, for an `n` below 128, with the tags of its registers.
pub(crate) fn bytes_at(state: &AbsState, n: u8) -> PairBytes
    requires { n < 128 }
    ensures { result ≡ bytes_at state.now n }
{
    let facts = facts_of(state);
    PairBytes {
        low: value_at(&state.registers, 2 * n),
        high: value_at(&state.registers, 2 * n + 1),
        interval: interval_at(&facts.intervals, n),
    }
}

// Writes both registers and the interval of pair `2 * n`, as far as there are such.
fn set_pair(registers: &mut Registers, intervals: &mut [Interval; 16], n: u8, pair: PairBytes)
    ensures registers { registers.new ≡ set_pair registers.old n pair }
    ensures intervals { intervals.new ≡ slice_set intervals.old n pair.interval }
{
    let at = usize::from(n);
    if at < 17 {
        registers[2 * at] = pair.low;
        registers[2 * at + 1] = pair.high;
    }
    if at < 16 {
        intervals[at] = pair.interval;
    }
}

// Writes back what is left of pair `2 * n`, if pairs are followed. Returns whether anything is left.
pub(crate) fn put(state: &mut AbsState, n: u8, left: Option<PairBytes>) -> bool
    ensures { left_in result state.new ≡ put state.old n left }
{
    state.facts.kept();
    let Some(mut facts) = state.facts.get() else {
        return true;
    };
    let Some(pair) = left else {
        return false;
    };
    set_pair(&mut state.registers, &mut facts.intervals, n, pair);
    state.facts.set(facts);
    true
}

// The pair with the byte of register `r` cut to the bytes of an interval.
fn narrow_byte(pair: PairBytes, r: u8, interval: Interval) -> Option<PairBytes>
    ensures { result ≡ byte_left r (λ b. narrow b interval.low interval.high) pair }
{
    if interval.low > 255 {
        return None;
    }
    let low = interval.low as u8;
    let high = interval.high.min(255) as u8;
    if r % 2 == 0 {
        pair.narrow_low(low, high)
    } else {
        pair.narrow_high(low, high)
    }
}

// Cuts a place to an interval. Returns whether anything is left.
pub(crate) fn narrow_at(state: &mut AbsState, place: CutPlace, interval: Interval) -> bool
    ensures { left_in result state.new ≡ narrow_at place interval state.old }
{
    match place {
        CutPlace::Neither => true,
        CutPlace::Byte(r) => {
            let pair = bytes_at(state, r / 2);
            put(state, r / 2, narrow_byte(pair, r, interval))
        }
        CutPlace::Pair(r) => {
            let pair = bytes_at(state, r / 2);
            put(state, r / 2, pair.narrow(interval))
        }
    }
}

// Cuts a place to what is left of it. Returns whether anything is left.
pub(crate) fn narrow_to(state: &mut AbsState, place: CutPlace, left: Option<Interval>) -> bool
    ensures { left_in result state.new ≡ narrow_to place left state.old }
{
    match left {
        Some(interval) => narrow_at(state, place, interval),
        None => false,
    }
}
