//! Facts on pairs that a write ends.

ghost use Rattle.std.specs.Prelude.{◌≡◌, ◌<◌, ◌*◌};
ghost use Rattle.pair_domain.specs.Tags.{IsNear};
ghost use Rattle.abs_state.specs.Ended.{is_bit_of, in_pair, in_side, sum_ended, compare_ended, zero_ended, intervals_ended, facts_ended, ended, written_hull};

use crate::pairs::hull_of;
use crate::values::Registers;
use pair_domain::{CompareTag, Facts, Interval, PairFacts, Side, SumTag, ZeroTag};

/// Drops the facts that a write ends. `written` has a bit for each register written, `flags` says that C, Z or S is written, `carry` that C
/// is.
pub fn end_facts(facts: &mut Facts, written: u64, flags: bool, carry: bool)
    ensures { facts.new ≡ ended (is_bit_of written) flags carry facts.old }
{
    facts.kept();
    if let Some(known) = facts.get() {
        let left = facts_ended(&known, written, flags, carry);
        facts.set(left);
    }
}

/// The interval of this register's pair, which is written, becomes the hull of its bytes.
pub fn hull_written(facts: &mut Facts, registers: &Registers, register: usize)
    requires { register < 32 }
    ensures { facts.new ≡ written_hull registers.now register facts.old }
{
    facts.kept();
    if let Some(known) = facts.get() {
        let n = register / 2;
        let mut intervals = known.intervals;
        intervals[n] = hull_of(registers[2 * n], registers[2 * n + 1]);
        facts.set(PairFacts { intervals, ..known });
    }
}

// The facts that are left, if pairs are followed.
fn facts_ended(known: &PairFacts, written: u64, flags: bool, carry: bool) -> PairFacts
    requires { IsNear known.now.sum }
    ensures facts { result ≡ facts_ended (is_bit_of written) flags carry known.now }
    ensures near { IsNear result.sum }
{
    PairFacts {
        intervals: intervals_ended(&known.intervals, written),
        sum: sum_ended(known.sum, written, carry),
        compare: compare_ended(known.compare, written, flags),
        zero: zero_ended(known.zero, written, flags),
    }
}

fn intervals_ended(intervals: &[Interval; 16], written: u64) -> [Interval; 16]
    ensures { result ≡ intervals_ended (is_bit_of written) 0 intervals.now }
{
    let mut left = *intervals;
    for n in 0..16u8 {
        let at = usize::from(n);
        left[at] = if in_pair(written, 2 * n) {
            Interval::whole()
        } else {
            intervals[at]
        };
    }
    left
}

fn sum_ended(tag: SumTag, written: u64, carry: bool) -> SumTag
    requires { IsNear tag }
    ensures tag { result ≡ sum_ended (is_bit_of written) carry tag }
    ensures near { IsNear result }
{
    match tag {
        SumTag::Up(r, _, _) if carry || in_pair(written, r) => SumTag::None,
        SumTag::Down(r, _, _) if carry || in_pair(written, r) => SumTag::None,
        _ => tag,
    }
}

fn compare_ended(tag: CompareTag, written: u64, flags: bool) -> CompareTag
    ensures { result ≡ compare_ended (is_bit_of written) flags tag }
{
    match tag {
        CompareTag::Byte(x, y) if flags || is_bit(written, x) || in_side(written, y) => {
            CompareTag::None
        }
        CompareTag::Pair(r, y, p)
            if flags || in_pair(written, r) || in_side(written, y) || is_bit(written, p) => {
            CompareTag::None
        }
        _ => tag,
    }
}

fn zero_ended(tag: ZeroTag, written: u64, flags: bool) -> ZeroTag
    ensures { result ≡ zero_ended (is_bit_of written) flags tag }
{
    match tag {
        ZeroTag::Byte(x) if flags || is_bit(written, x) => ZeroTag::None,
        ZeroTag::Pair(r) if flags || in_pair(written, r) => ZeroTag::None,
        _ => tag,
    }
}

// Whether a register of this pair is written.
fn in_pair(written: u64, r: u8) -> bool
    ensures { result ≡ in_pair (is_bit_of written) r }
{
    is_bit(written, r) || (r < 63 && is_bit(written, r + 1))
}

fn in_side(written: u64, y: Side) -> bool
    ensures { result ≡ in_side (is_bit_of written) y }
{
    match y {
        Side::Byte(_) => false,
        Side::Register(q) => is_bit(written, q),
    }
}

fn is_bit(written: u64, r: u8) -> bool
    ensures { result ≡ is_bit_of written r }
{
    r < 64 && (written >> r) & 1 == 1
}
