//! The intervals of the two sides of a comparison, by its outcome.

ghost use Rattle.std.specs.Prelude.{◌≡◌, ◌<◌};
ghost use Rattle.pair_domain.specs.Intervals.{interval_from};
ghost use Rattle.pair_domain.specs.Compare.{off, part_of, either, left_less, left_not_less};
ghost use Rattle.pair_cuts.specs.Outcomes.{left_part, right_part, outcome_of};

use pair_domain::Interval;

/// The outcome of a comparison of a left side with a right one. Source: own.
#[derive(Clone, Copy)]
pub enum Outcome {
    /// The left number is below the right one.
    Below,
    /// The left number is not below the right one.
    NotBelow,
    /// The two are equal.
    Equal,
    /// The two are not equal.
    NotEqual,
    /// The left number is below the right one, as signed numbers.
    Less,
    /// The left number is not below the right one, as signed numbers.
    NotLess,
}

// The numbers from `low` to `high`; `None` if there are none.
fn interval_from(low: u32, high: u16) -> Option<Interval>
    ensures { result ≡ interval_from low high }
{
    if low <= u32::from(high) {
        Some(Interval {
            low: low as u16,
            high,
        })
    } else {
        None
    }
}

// The numbers of `x` that may differ from one of `y`: only a single member of `y` excludes any.
pub(crate) fn off(x: Interval, y: Interval) -> Option<Interval>
    ensures { result ≡ off x y }
{
    if y.low != y.high {
        return Some(x);
    }
    let low = if x.low == y.low {
        u32::from(y.low) + 1
    } else {
        u32::from(x.low)
    };
    let high = if x.high == y.low {
        y.low.saturating_sub(1)
    } else {
        x.high
    };
    interval_from(low, high)
}

// The numbers of `x` from `low` on that are below `end`.
fn part_of(x: Interval, low: u32, end: u32) -> Option<Interval>
    ensures { result ≡ part_of x low end }
{
    if end == 0 {
        return None;
    }
    let high = u32::from(x.high).min(end - 1);
    interval_from(u32::from(x.low).max(low), high as u16)
}

// The hull of both, if they exist.
fn either(a: Option<Interval>, b: Option<Interval>) -> Option<Interval>
    ensures { result ≡ either a b }
{
    match (a, b) {
        (None, _) => b,
        (Some(_), None) => a,
        (Some(i), Some(j)) => Some(i.join(j)),
    }
}

// The numbers of `x` that may be signed below one of `y`: below its signed greatest number.
fn left_less(half: u16, x: Interval, y: Interval) -> Option<Interval>
    requires { 0 < half }
    ensures { result ≡ left_less half x y }
{
    let greatest = if y.low < half {
        y.high.min(half - 1)
    } else {
        y.high
    };
    if greatest < half {
        let negative = part_of(x, u32::from(half), 2 * u32::from(half));
        either(negative, part_of(x, 0, u32::from(greatest)))
    } else {
        part_of(x, u32::from(half), u32::from(greatest))
    }
}

// The numbers of `x` that may not be signed below one of `y`: from the signed least number of `y` on.
fn left_not_less(half: u16, x: Interval, y: Interval) -> Option<Interval>
    ensures { result ≡ left_not_less half x y }
{
    let least = if y.high < half {
        y.low
    } else {
        y.low.max(half)
    };
    if least < half {
        part_of(x, u32::from(least), u32::from(half))
    } else {
        let negative = part_of(x, u32::from(least), 2 * u32::from(half));
        either(negative, part_of(x, 0, u32::from(half)))
    }
}

impl Outcome {
    // The outcome that flag `n` reports if it is `on`; `None` for flags other than C, Z and S.
    pub(crate) fn of(n: u8, on: bool) -> Option<Outcome>
        ensures { result ≡ outcome_of n on }
    {
        match (n, on) {
            (0, true) => Some(Outcome::Below),
            (0, false) => Some(Outcome::NotBelow),
            (1, true) => Some(Outcome::Equal),
            (1, false) => Some(Outcome::NotEqual),
            (4, true) => Some(Outcome::Less),
            (4, false) => Some(Outcome::NotLess),
            _ => None,
        }
    }

    // What is left of the left interval. There are twice `half` signed numbers; `half` is not 0.
    pub(crate) fn left(self, half: u16, x: Interval, y: Interval) -> Option<Interval>
        requires { 0 < half }
        ensures { result ≡ left_part self half x y }
    {
        match self {
            Outcome::Below => {
                if y.high == 0 {
                    return None;
                }
                interval_from(u32::from(x.low), x.high.min(y.high - 1))
            }
            Outcome::NotBelow => interval_from(u32::from(x.low.max(y.low)), x.high),
            Outcome::Equal => x.meet(y),
            Outcome::NotEqual => off(x, y),
            Outcome::Less => left_less(half, x, y),
            Outcome::NotLess => left_not_less(half, x, y),
        }
    }

    // What is left of the right interval.
    pub(crate) fn right(self, x: Interval, y: Interval) -> Option<Interval>
        ensures { result ≡ right_part self x y }
    {
        match self {
            Outcome::Below => interval_from(u32::from(y.low).max(u32::from(x.low) + 1), y.high),
            Outcome::NotBelow => interval_from(u32::from(y.low), y.high.min(x.high)),
            Outcome::Equal => x.meet(y),
            Outcome::NotEqual => off(y, x),
            Outcome::Less | Outcome::NotLess => Some(y),
        }
    }
}
