//! The writer of the words on pairs.

ghost use Rattle.std.specs.Prelude.{◌≡◌, ◌∷◌, [], ◌++◌, OnOk};
ghost use Rattle.text_base.specs.Writing.{with_word, with_words};
ghost use Rattle.pair_words.specs.Spelling.{ends_text, sum_word, side_text, compare_word, zero_word, interval_text, intervals_text, intervals_word, facts_words};

use crate::digits::{five_digits, four_digits, two_digits};
use pair_domain::{CompareTag, Interval, PairFacts, Side, SumTag, ZeroTag};
use std::alloc::{AllocError, Global};
use text_base::LineWriter;

// Writes a letter, a pair and two ends.
fn ends_word(letter: u8, pair: u8, low: u32, high: u32) -> [u8; 13]
    ensures { result ≡ letter ∷ ends_text pair low high }
{
    let r = two_digits(pair);
    let a = five_digits(low);
    let b = five_digits(high);
    [
        letter, r.0, r.1, a.0, a.1, a.2, a.3, a.4, b.0, b.1, b.2, b.3, b.4,
    ]
}

// Writes a sum tag.
fn write_sum(out: &mut LineWriter, sum: SumTag) -> Result<(), AllocError>
    ensures { OnOk result (out.new ≡ with_word out.old (sum_word sum)) }
{
    match sum {
        SumTag::None => out.word(b"-"),
        SumTag::Up(pair, low, high) => out.word(&ends_word(b'u', pair, low, high)),
        SumTag::Down(pair, low, high) => out.word(&ends_word(b'd', pair, low, high)),
    }
}

// The letter and the digits of a side.
fn side_digits(side: Side) -> (u8, u8, u8)
    ensures { side_text side ≡ result.0 ∷ result.1 ∷ result.2 ∷ [] }
{
    match side {
        Side::Byte(byte) => {
            let k = two_digits(byte);
            (b'k', k.0, k.1)
        }
        Side::Register(register) => {
            let q = two_digits(register);
            (b'r', q.0, q.1)
        }
    }
}

// Writes a compare tag.
fn write_compare(out: &mut LineWriter, compare: CompareTag) -> Result<(), AllocError>
    ensures { OnOk result (out.new ≡ with_word out.old (compare_word compare)) }
{
    match compare {
        CompareTag::None => out.word(b"-"),
        CompareTag::Byte(register, side) => {
            let x = two_digits(register);
            let y = side_digits(side);
            out.word(&[x.0, x.1, y.0, y.1, y.2])
        }
        CompareTag::Pair(pair, side, beside) => {
            let r = two_digits(pair);
            let y = side_digits(side);
            let p = two_digits(beside);
            out.word(&[r.0, r.1, y.0, y.1, y.2, p.0, p.1])
        }
    }
}

// Writes a zero tag.
fn write_zero(out: &mut LineWriter, zero: ZeroTag) -> Result<(), AllocError>
    ensures { OnOk result (out.new ≡ with_word out.old (zero_word zero)) }
{
    match zero {
        ZeroTag::None => out.word(b"-"),
        ZeroTag::Byte(register) => {
            let x = two_digits(register);
            out.word(&[b'b', x.0, x.1])
        }
        ZeroTag::Pair(pair) => {
            let r = two_digits(pair);
            out.word(&[b'p', r.0, r.1])
        }
    }
}

// Appends a pair with its interval if it differs from the hull.
#[tactic(auto, using(crate::proofs::Numerals::joined_three))]
fn append_interval(
    text: &mut Vec<u8>,
    pair: u8,
    hull: Interval,
    interval: Interval,
) -> Result<(), AllocError>
    ensures { OnOk result (text.new.items ≡ text.old.items ++ interval_text pair hull interval) }
{
    if interval.low == hull.low && interval.high == hull.high {
        return Ok(());
    }
    let r = two_digits(pair);
    let l = four_digits(interval.low);
    let h = four_digits(interval.high);
    text.extend_from_slice(&[r.0, r.1, l.0, l.1, l.2, l.3, h.0, h.1, h.2, h.3])
}

// Appends all pairs whose intervals differ from the hulls.
fn append_intervals(
    text: &mut Vec<u8>,
    hulls: &[Interval; 16],
    intervals: &[Interval; 16],
) -> Result<(), AllocError>
    ensures { OnOk result (text.new.items ≡ text.old.items ++ intervals_text 0 hulls.now intervals.now) }
{
    for n in 0..16 {
        append_interval(text, 2 * n as u8, hulls[n], intervals[n])?;
    }
    Ok(())
}

// Writes the intervals that differ from the hulls.
fn write_intervals(
    out: &mut LineWriter,
    alloc: Global,
    hulls: &[Interval; 16],
    intervals: &[Interval; 16],
) -> Result<(), AllocError>
    ensures { OnOk result (out.new ≡ with_word out.old (intervals_word hulls.now intervals.now)) }
{
    let mut text = Vec::new(alloc);
    match append_intervals(&mut text, hulls, intervals) {
        Ok(()) if text.is_empty() => out.word(b"-"),
        Ok(()) => out.word(&text),
        Err(fault) => Err(fault),
    }
}

/// Writes the facts on pairs as four words: sum tag, compare tag, zero tag and intervals. `hulls` are those of the registers' bytes.
pub fn write_facts(
    out: &mut LineWriter,
    alloc: Global,
    hulls: &[Interval; 16],
    facts: &PairFacts,
) -> Result<(), AllocError>
    ensures { OnOk result (out.new ≡ with_words out.old (facts_words hulls.now facts.now)) }
{
    write_sum(out, facts.sum)?;
    write_compare(out, facts.compare)?;
    write_zero(out, facts.zero)?;
    write_intervals(out, alloc, hulls, &facts.intervals)
}
