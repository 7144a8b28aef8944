//! Facts on pairs after a return.

ghost use Rattle.std.specs.Prelude.{ℕ, ◌≡◌, ◌+◌, ◌%◌, ◌<◌, ◌==◌, ◌&&◌, IfOk, IfSome};
ghost use Rattle.avr_model.specs.State.{REGISTERS};
ghost use Rattle.sp_domain.specs.declared.tags.Tag.TheVariants as tag;
ghost use Rattle.sp_domain.specs.Tags.{is_same_tag};
ghost use Rattle.pair_domain.specs.Intervals.{hull};
ghost use Rattle.abs_state.specs.Values.{value_at, set_of};
ghost use Rattle.abs_state.specs.Formed.{NamesRegister};
ghost use Rattle.pair_domain.specs.Tags.{IsNear};
ghost use Rattle.abs_state.specs.PairsBack.{kept_pair, interval_back, collected, keeps, keeps_side, sum_after, compare_after, zero_after, facts_with, known_back};

use crate::values::{AbsByte, Registers};
use pair_domain::facts::interval_at;
use pair_domain::{CompareTag, Facts, Interval, PairFacts, Side, SumTag, ZeroTag};
use sp_domain::Tag;
use std::alloc::{AllocError, Global};

/// The facts after a return, from those of the caller, those of the exit, and the registers after it. `None` if nothing is left of a pair.
pub fn facts_returned(
    alloc: Global,
    caller: &Facts,
    exit: &Registers,
    entry: bool,
    found: &Facts,
    registers: &Registers,
) -> Result<Option<Facts>, AllocError>
    requires { (r : ℕ) → r < REGISTERS → NamesRegister (value_at exit.now r).tag }
    ensures { IfOk result (λ o. o ≡ known_back caller.now exit.now entry found.now registers.now) }
{
    caller.kept();
    let (Some(known), Some(found)) = (caller.get(), found.get()) else {
        return Ok(Some(Facts::none()));
    };
    match pairs_returned(&known, exit, entry, &found, registers) {
        Some(facts) => match Facts::new(alloc, facts) {
            Ok(facts) => Ok(Some(facts)),
            Err(fault) => Err(fault),
        },
        None => Ok(None),
    }
}

// The case that both states follow pairs.
fn pairs_returned(
    caller: &PairFacts,
    exit: &Registers,
    entry: bool,
    found: &PairFacts,
    registers: &Registers,
) -> Option<PairFacts>
    requires names { (r : ℕ) → r < REGISTERS → NamesRegister (value_at exit.now r).tag }
    requires near { IsNear caller.now.sum }
    ensures facts { result ≡ facts_with caller.now exit.now entry (collected (interval_back caller.now.intervals exit.now found.now.intervals registers.now) 0 16) }
    ensures near { IfSome result (λ f. IsNear f.sum) }
{
    let intervals = intervals_returned(&caller.intervals, exit, &found.intervals, registers)?;
    if !entry {
        return Some(PairFacts {
            intervals,
            sum: SumTag::None,
            compare: CompareTag::None,
            zero: ZeroTag::None,
        });
    }
    Some(PairFacts {
        intervals,
        sum: sum_returned(caller.sum, exit),
        compare: compare_returned(caller.compare, exit),
        zero: zero_returned(caller.zero, exit),
    })
}

// The interval of each pair after a return.
fn intervals_returned(
    caller: &[Interval; 16],
    exit: &Registers,
    found: &[Interval; 16],
    registers: &Registers,
) -> Option<[Interval; 16]>
    requires { (r : ℕ) → r < REGISTERS → NamesRegister (value_at exit.now r).tag }
    ensures { result ≡ collected (interval_back caller.now exit.now found.now registers.now) 0 16 }
{
    let mut intervals = *found;
    for n in 0..16 {
        match interval_returned(caller, exit, found, registers, n) {
            Some(interval) => intervals[n] = interval,
            None => return None,
        }
    }
    Some(intervals)
}

// The interval of pair `2 * n`: that of the exit, met with the caller's if the callee preserved the pair, cut to the registers after the
// return.
fn interval_returned(
    caller: &[Interval; 16],
    exit: &Registers,
    found: &[Interval; 16],
    registers: &Registers,
    n: usize,
) -> Option<Interval>
    requires names { (r : ℕ) → r < REGISTERS → NamesRegister (value_at exit.now r).tag }
    requires inside { n < 16 }
    ensures { result ≡ interval_back caller.now exit.now found.now registers.now n }
{
    let interval = match kept_pair(exit[2 * n].tag, exit[2 * n + 1].tag) {
        Some(a) => interval_at(caller, a).meet(found[n])?,
        None => found[n],
    };
    interval.meet(hull_of(registers[2 * n], registers[2 * n + 1]))
}

// The entry pair, of r0 to r31, in the two registers of a pair, if it is one.
fn kept_pair(low: Tag, high: Tag) -> Option<u8>
    ensures { result ≡ kept_pair low high }
{
    match (low, high) {
        (Tag::Entry(a), Tag::Entry(b)) if a < 32 && a % 2 == 0 && b == a + 1 => Some(a / 2),
        _ => None,
    }
}

/// The hull: from the number of the least bytes to that of the greatest.
pub fn hull_of(low: AbsByte, high: AbsByte) -> Interval
    ensures { result ≡ hull (set_of low) (set_of high) }
{
    Interval {
        low: 256 * u16::from(high.low) + u16::from(low.low),
        high: 256 * u16::from(high.high) + u16::from(low.high),
    }
}

// The caller's tags, if the callee preserved each register that they name.
fn sum_returned(caller: SumTag, exit: &Registers) -> SumTag
    requires { IsNear caller }
    ensures tag { result ≡ sum_after exit.now caller }
    ensures near { IsNear result }
{
    match caller {
        SumTag::Up(r, a, b) if is_pair_kept(exit, r) => SumTag::Up(r, a, b),
        SumTag::Down(r, a, b) if is_pair_kept(exit, r) => SumTag::Down(r, a, b),
        _ => SumTag::None,
    }
}

fn compare_returned(caller: CompareTag, exit: &Registers) -> CompareTag
    ensures { result ≡ compare_after exit.now caller }
{
    match caller {
        CompareTag::Byte(x, y) if is_kept(exit, x) && is_side_kept(exit, y) => caller,
        CompareTag::Pair(r, y, p)
            if is_pair_kept(exit, r) && is_side_kept(exit, y) && is_kept(exit, p) => { caller }
        _ => CompareTag::None,
    }
}

fn zero_returned(caller: ZeroTag, exit: &Registers) -> ZeroTag
    ensures { result ≡ zero_after exit.now caller }
{
    match caller {
        ZeroTag::Byte(x) if is_kept(exit, x) => ZeroTag::Byte(x),
        ZeroTag::Pair(r) if is_pair_kept(exit, r) => ZeroTag::Pair(r),
        _ => ZeroTag::None,
    }
}

fn is_side_kept(exit: &Registers, y: Side) -> bool
    ensures { result ≡ keeps_side exit.now y }
{
    match y {
        Side::Byte(_) => true,
        Side::Register(q) => is_kept(exit, q),
    }
}

fn is_pair_kept(exit: &Registers, r: u8) -> bool
    ensures { result ≡ (keeps exit.now r && keeps exit.now (r + 1)) }
{
    is_kept(exit, r) && r < 33 && is_kept(exit, r + 1)
}

/// Whether this register is one of the 34, and holds its own entry value.
pub fn is_kept(registers: &Registers, r: u8) -> bool
    ensures { result ≡ is_same_tag (value_at registers.now r).tag (tag.Entry r) }
{
    let at = usize::from(r);
    at < 34 && registers[at].tag == Tag::Entry(r)
}
