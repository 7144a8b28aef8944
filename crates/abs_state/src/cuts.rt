//! Cuts of one register pair.

ghost use Rattle.std.specs.Prelude.{◌≡◌, ◌<◌};
ghost use Rattle.pair_domain.specs.PairSets.{cut_pair, narrow_low, narrow_high, low_within, narrow_pair};

use crate::pairs::hull_of;
use crate::state::AbsState;
use crate::values::AbsByte;
use pair_domain::{Interval, PairFacts};

/// One register pair: its low byte, its high byte and its interval.
#[derive(Clone, Copy)]
pub struct PairBytes {
    pub low: AbsByte,
    pub high: AbsByte,
    pub interval: Interval,
}

impl PairBytes {
    ghost use Rattle.abs_state.specs.PairBytes.{sets, left_by};

    /// Cuts the interval to the hull of the bytes; `None` if nothing is left.
    pub fn cut(self) -> Option<PairBytes>
        ensures { result ≡ left_by self (cut_pair (sets self)) }
    {
        let interval = self.interval.meet(hull_of(self.low, self.high))?;
        Some(PairBytes { interval, ..self })
    }

    /// Cuts the low byte, and the interval, to `low` to `high`.
    pub fn narrow_low(self, low: u8, high: u8) -> Option<PairBytes>
        ensures { result ≡ left_by self (narrow_low (sets self) low high) }
    {
        let low = self.low.narrow(low, high)?;
        PairBytes { low, ..self }.cut()
    }

    /// Cuts the high byte, and the interval, to `low` to `high`.
    pub fn narrow_high(self, low: u8, high: u8) -> Option<PairBytes>
        ensures { result ≡ left_by self (narrow_high (sets self) low high) }
    {
        let high = self.high.narrow(low, high)?;
        PairBytes { high, ..self }.cut()
    }

    /// Cuts the pair to an interval, and its bytes accordingly.
    pub fn narrow(self, interval: Interval) -> Option<PairBytes>
        ensures { result ≡ left_by self (narrow_pair (sets self) interval) }
    {
        let interval = self.interval.meet(interval)?;
        let low = self.low.narrow_to(interval)?;
        let high = self
            .high
            .narrow((interval.low / 256) as u8, (interval.high / 256) as u8)?;
        PairBytes {
            low,
            high,
            interval,
        }
        .cut()
    }
}

impl AbsByte {
    ghost use Rattle.abs_state.specs.Frames.{with_tag};
    ghost use Rattle.abs_state.specs.Values.{set_of};

    // Cuts a low byte to an interval within one high byte.
    fn narrow_to(self, interval: Interval) -> Option<AbsByte>
        ensures { result ≡ with_tag self.tag (low_within (set_of self) interval) }
    {
        if interval.low / 256 == interval.high / 256 {
            self.narrow((interval.low % 256) as u8, (interval.high % 256) as u8)
        } else {
            Some(self)
        }
    }
}

impl AbsState {
    ghost use Rattle.abs_state.specs.Cuts.{cut_state};
    ghost use Rattle.abs_state.specs.PairBytes.{pair_at, put, left_in};

    /// Pair `2 * n`, if pairs are followed.
    pub fn pair(&self, n: usize) -> Option<PairBytes>
        requires { n < 16 }
        ensures { result ≡ pair_at self.now n }
    {
        let facts = self.facts.get()?;
        Some(PairBytes {
            low: self.registers[2 * n],
            high: self.registers[2 * n + 1],
            interval: facts.intervals[n],
        })
    }

    // Replaces pair `2 * n` by what is left. Returns whether anything is.
    fn put(&mut self, n: usize, left: Option<PairBytes>) -> bool
        requires { n < 16 }
        ensures { left_in result self.new ≡ put self.old n left }
    {
        let Some(pair) = left else {
            return false;
        };
        self.registers[2 * n] = pair.low;
        self.registers[2 * n + 1] = pair.high;
        self.facts.kept();
        if let Some(facts) = self.facts.get() {
            let mut intervals = facts.intervals;
            intervals[n] = pair.interval;
            self.facts.set(PairFacts { intervals, ..facts });
        }
        true
    }

    /// Cuts the interval of pair `2 * n` to the hull of its bytes. Returns whether anything is left.
    pub fn cut_pair(&mut self, n: usize) -> bool
        requires { n < 16 }
        ensures { left_in result self.new ≡ cut_state cut_pair self.old n }
    {
        match self.pair(n) {
            Some(pair) => self.put(n, pair.cut()),
            None => true,
        }
    }

    /// Cuts pair `2 * n` to an interval. Returns whether anything is left.
    pub fn narrow_pair(&mut self, n: usize, interval: Interval) -> bool
        requires { n < 16 }
        ensures { left_in result self.new ≡ cut_state (λ p. narrow_pair p interval) self.old n }
    {
        match self.pair(n) {
            Some(pair) => self.put(n, pair.narrow(interval)),
            None => true,
        }
    }
}
