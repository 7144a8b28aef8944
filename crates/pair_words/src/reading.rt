//! The reader of the words on pairs.

ghost use Rattle.std.specs.Prelude.{◌≡◌, ◌<◌, ◌+◌, IfSome};
ghost use Rattle.std.specs.Option.{option_map};
ghost use Rattle.pair_domain.specs.Tags.{IsNear};
ghost use Rattle.pair_words.specs.Reading.{register_at, pair_at, ends_in, sum_in, side_at, compare_in, alone, zero_in, inside_at, interval_at, intervals_at, intervals_in, facts_at};

use line_reading::Letters;
use pair_domain::{CompareTag, Interval, PairFacts, Side, SumTag, ZeroTag};
use text_base::Words;

/// The number of a register, below 32, in two digits.
#[tactic(auto, unfolding(crate::specs::Reading::register_at))]
pub fn register_of(letters: &mut Letters<'_>) -> Option<u8>
    ensures { option_map (λ r. (r, letters.new)) result ≡ register_at letters.old }
{
    let register = letters.byte()?;
    if register < 32 { Some(register) } else { None }
}

// The number of a pair, which is even.
#[tactic(auto, unfolding(crate::specs::Reading::pair_at))]
fn pair_of(letters: &mut Letters<'_>) -> Option<u8>
    ensures { option_map (λ r. (r, letters.new)) result ≡ pair_at letters.old }
{
    let register = register_of(letters)?;
    if register % 2 == 0 {
        Some(register)
    } else {
        None
    }
}

// A pair and two ends, at the end of a word.
#[tactic(auto, unfolding(crate::specs::Reading::ends_in))]
fn ends_of(letters: &mut Letters<'_>) -> Option<(u8, u32, u32)>
    ensures exact { result ≡ ends_in letters.old }
    ensures near { IfSome result (λ e. e.2 < e.1 + 65535) }
{
    let pair = pair_of(letters)?;
    let low = letters.digits(5)?;
    let high = letters.digits(5)?;
    if low <= high && high - low < 65_535 && letters.is_end() {
        Some((pair, low, high))
    } else {
        None
    }
}

// Parses the sum tag of a word.
#[tactic(auto, unfolding(crate::specs::Reading::sum_in))]
fn sum_of(word: &[u8]) -> Option<SumTag>
    ensures exact { result ≡ sum_in word.now }
    ensures near { IfSome result IsNear }
{
    if word == b"-".as_slice() {
        return Some(SumTag::None);
    }
    let mut letters = Letters::new(word);
    let letter = letters.next()?;
    if letter == b'u' {
        let (pair, low, high) = ends_of(&mut letters)?;
        Some(SumTag::Up(pair, low, high))
    } else if letter == b'd' {
        let (pair, low, high) = ends_of(&mut letters)?;
        Some(SumTag::Down(pair, low, high))
    } else {
        None
    }
}

// Parses the right side of a comparison.
#[tactic(auto, unfolding(crate::specs::Reading::side_at))]
fn side_of(letters: &mut Letters<'_>) -> Option<Side>
    ensures { option_map (λ s. (s, letters.new)) result ≡ side_at letters.old }
{
    let letter = letters.next()?;
    if letter == b'k' {
        Some(Side::Byte(letters.byte()?))
    } else if letter == b'r' {
        Some(Side::Register(register_of(letters)?))
    } else {
        None
    }
}

// Parses the compare tag of a word.
#[tactic(auto, unfolding(crate::specs::Reading::compare_in, crate::specs::Reading::compare_by, crate::specs::Reading::compare_behind))]
fn compare_of(word: &[u8]) -> Option<CompareTag>
    ensures { result ≡ compare_in word.now }
{
    if word == b"-".as_slice() {
        return Some(CompareTag::None);
    }
    let mut letters = Letters::new(word);
    let register = register_of(&mut letters)?;
    let side = side_of(&mut letters)?;
    if letters.is_end() {
        return Some(CompareTag::Byte(register, side));
    }
    let beside = register_of(&mut letters)?;
    if register % 2 == 0 && letters.is_end() {
        Some(CompareTag::Pair(register, side, beside))
    } else {
        None
    }
}

// The number, if nothing follows it.
fn alone(number: Option<u8>, letters: &Letters<'_>) -> Option<u8>
    ensures { result ≡ alone (option_map (λ r. (r, letters.now)) number) }
{
    let number = number?;
    if letters.is_end() { Some(number) } else { None }
}

// Parses the zero tag of a word.
#[tactic(auto, unfolding(crate::specs::Reading::zero_in))]
fn zero_of(word: &[u8]) -> Option<ZeroTag>
    ensures { result ≡ zero_in word.now }
{
    if word == b"-".as_slice() {
        return Some(ZeroTag::None);
    }
    let mut letters = Letters::new(word);
    let letter = letters.next()?;
    if letter == b'b' {
        let register = register_of(&mut letters);
        Some(ZeroTag::Byte(alone(register, &letters)?))
    } else if letter == b'p' {
        let pair = pair_of(&mut letters);
        Some(ZeroTag::Pair(alone(pair, &letters)?))
    } else {
        None
    }
}

// An interval within the hull that differs from it.
#[tactic(auto, unfolding(crate::specs::Reading::inside_at))]
fn inside_of(letters: &mut Letters<'_>, hull: Interval) -> Option<Interval>
    ensures { option_map (λ i. (i, letters.new)) result ≡ inside_at hull letters.old }
{
    let low = letters.digits(4)? as u16;
    let high = letters.digits(4)? as u16;
    let whole = low == hull.low && high == hull.high;
    if hull.low <= low && low <= high && high <= hull.high && !whole {
        Some(Interval { low, high })
    } else {
        None
    }
}

// The interval of a pair with this hull: the one after its number if this comes next, otherwise the hull.
#[tactic(auto, unfolding(crate::specs::Reading::interval_at))]
fn interval_of(letters: &mut Letters<'_>, pair: u8, hull: Interval) -> Option<Interval>
    ensures { option_map (λ i. (i, letters.new)) result ≡ interval_at pair hull letters.old }
{
    let mut ahead = Letters::new(letters.rest());
    match ahead.byte() {
        Some(next) if next == pair => {
            letters.byte()?;
            inside_of(letters, hull)
        }
        _ => Some(hull),
    }
}

// The intervals of all pairs with these hulls.
fn intervals_behind(letters: &mut Letters<'_>, hulls: &[Interval; 16]) -> Option<[Interval; 16]>
    ensures { option_map (λ is. (is, letters.new)) result ≡ intervals_at 0 hulls.now letters.old }
{
    let mut intervals = *hulls;
    for n in 0..16 {
        let Some(interval) = interval_of(letters, 2 * n as u8, hulls[n]) else {
            return None;
        };
        intervals[n] = interval;
    }
    Some(intervals)
}

// Parses the intervals of a word.
#[tactic(auto, unfolding(crate::specs::Reading::intervals_in))]
fn intervals_of(word: &[u8], hulls: &[Interval; 16]) -> Option<[Interval; 16]>
    ensures { result ≡ intervals_in hulls.now word.now }
{
    if word == b"-".as_slice() {
        return Some(*hulls);
    }
    if word.is_empty() {
        return None;
    }
    let mut letters = Letters::new(word);
    let intervals = intervals_behind(&mut letters, hulls)?;
    if letters.is_end() {
        Some(intervals)
    } else {
        None
    }
}

/// Parses the facts on pairs from the next four words: sum tag, compare tag, zero tag and intervals. `hulls` are those of the registers'
/// bytes. `None` exactly when the words are no spelling under these hulls.
#[tactic(auto, unfolding(crate::specs::Reading::facts_at))]
pub fn facts_of(words: &mut Words<'_>, hulls: &[Interval; 16]) -> Option<PairFacts>
    ensures exact { option_map (λ f. (f, words.new)) result ≡ facts_at hulls.now words.old }
    ensures near { IfSome result (λ f. IsNear f.sum) }
{
    let (Some(sum), Some(compare), Some(zero), Some(intervals)) = (
        words.next(),
        words.next(),
        words.next(),
        words.next(),
    ) else {
        return None;
    };
    let (Some(sum), Some(compare), Some(zero), Some(intervals)) = (
        sum_of(sum),
        compare_of(compare),
        zero_of(zero),
        intervals_of(intervals, hulls),
    ) else {
        return None;
    };
    Some(PairFacts {
        intervals,
        sum,
        compare,
        zero,
    })
}
