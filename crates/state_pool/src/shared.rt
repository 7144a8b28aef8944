//! States as keys of a hash table.

ghost use Rattle.std.specs.Prelude.{◌≡◌, ◌↔◌, ◌<◌, ◌≤◌, ◌+◌, ◌*◌, IsTrue, length, fold};
ghost use Rattle.state_pool.specs.SameState.{same_state};
ghost use Rattle.state_pool.specs.Digest.{folded, mix, tag_number, carry_number, value_number, flags_number, side_number, compare_number, zero_number, mix_value, mix_interval, mix_sum, mix_pairs, mix_facts, mix_slots, AreFree, digest_of, state_hash};
ghost use Rattle.state_pool.specs.Equal.{state_equivalence, fed_alike};

use abs_state::{AbsByte, AbsFlags, AbsState};
use bit_domain::TriByte;
use pair_domain::{CompareTag, Facts, Interval, PairFacts, Side, SumTag, ZeroTag};
use sp_domain::{CarryTag, Slot, Tag};
use std::hash::{Hash, Hasher};
use std::marker::Model;

/// A state, to be hashed. Seen as the state.
#[derive(Drop)]
pub struct Shared {
    /// The state.
    pub state: AbsState,
}

impl Model for Shared {
    ghost use Rattle.abs_state.specs.declared.state.AbsState.{AbsState};

    ghost Value = { AbsState };

    ghost view = { λ s. s.state };
}

impl PartialEq for Shared {
    ghost eq = { same_state };

    ghost laws = { state_equivalence.0 };

    fn eq(&self, other: &Shared) -> bool {
        is_same(&self.state, &other.state)
    }
}

impl Eq for Shared {
    ghost laws = { state_equivalence.1 };
}

impl Hash for Shared {
    ghost hash_input = { state_hash };

    ghost respects_eq = { fed_alike };

    fn hash<H: Hasher>(&self, state: &mut H) {
        digest(&self.state).hash(state);
    }
}

// Whether both are equal.
#[tactic(auto, using(crate::proofs::SameStates::state_is, crate::proofs::SameStates::same_flags))]
fn is_same(state: &AbsState, other: &AbsState) -> bool
    ensures { IsTrue result ↔ (state.now ≡ other.now) }
{
    state.flags == other.flags
        && are_same_values(&state.registers, &other.registers)
        && are_same_facts(&state.facts, &other.facts)
        && are_same_slots(state.slots.as_slice(), other.slots.as_slice())
}

// Facts on pairs are equal if each is within the other.
fn are_same_facts(facts: &Facts, other: &Facts) -> bool
    ensures { IsTrue result ↔ (facts.now ≡ other.now) }
{
    facts.kept();
    other.kept();
    facts.le(other) && other.le(facts)
}

fn are_same_values(values: &[AbsByte], others: &[AbsByte]) -> bool
    ensures { IsTrue result ↔ (values.now ≡ others.now) }
{
    values == others
}

fn are_same_slots(slots: &[Slot<AbsByte>], others: &[Slot<AbsByte>]) -> bool
    ensures { IsTrue result ↔ (slots.now ≡ others.now) }
{
    if slots.len() != others.len() {
        return false;
    }
    for d in 0..slots.len() {
        if !is_same_slot(&slots[d], &others[d]) {
            return false;
        }
    }
    true
}

#[tactic(auto, using(crate::proofs::SameStates::same_value))]
fn is_same_slot(slot: &Slot<AbsByte>, other: &Slot<AbsByte>) -> bool
    ensures { IsTrue result ↔ (slot.now ≡ other.now) }
{
    match (slot, other) {
        (Slot::Free, Slot::Free) => true,
        (Slot::Guarded(value), Slot::Guarded(next)) => value == next,
        _ => false,
    }
}

// A digest of a state. Every field has a case: each struct is destructured without `..`, here and in the functions below, so a new field
// must be added before this compiles.
fn digest(state: &AbsState) -> u64
    ensures { result ≡ digest_of state.now }
{
    let AbsState {
        registers,
        flags,
        slots,
        facts,
    } = state;
    let slots = slots.as_slice();
    let told = digest_facts(flags_number(flags), facts);
    let values = digest_values(told, registers);
    digest_slots(mixed(values, slots.len() as u64), slots)
}

// The intervals and tags of pairs, if pairs are followed.
fn digest_facts(start: u64, facts: &Facts) -> u64
    ensures { result ≡ mix_facts start facts.now }
{
    match facts.get() {
        Some(known) => digest_pairs(start, &known),
        None => start,
    }
}

fn digest_pairs(start: u64, facts: &PairFacts) -> u64
    ensures { result ≡ mix_pairs start facts.now }
{
    let PairFacts {
        intervals,
        sum,
        compare,
        zero,
    } = facts;
    let digest = digest_sum(digest_intervals(start, intervals), *sum);
    let tags = compare_number(*compare) + 4_294_967_296 * zero_number(*zero);
    mixed(digest, tags)
}

// Both ends of each interval.
#[tactic(auto, using(crate::proofs::Lists::fold_take))]
fn digest_intervals(start: u64, intervals: &[Interval]) -> u64
    ensures { result ≡ fold mix_interval start intervals.now }
{
    let mut digest = start;
    for interval in intervals {
        let Interval { low, high } = *interval;
        digest = mixed(digest, u64::from(low) + 65_536 * u64::from(high));
    }
    digest
}

fn digest_sum(start: u64, tag: SumTag) -> u64
    ensures { result ≡ mix_sum start tag }
{
    match tag {
        SumTag::None => mixed(start, 0),
        SumTag::Up(pair, low, high) => {
            let first = mixed(start, 1 + 4 * (u64::from(pair) + 256 * u64::from(low)));
            mixed(first, u64::from(high))
        }
        SumTag::Down(pair, low, high) => {
            let first = mixed(start, 2 + 4 * (u64::from(pair) + 256 * u64::from(low)));
            mixed(first, u64::from(high))
        }
    }
}

fn side_number(side: Side) -> u64
    ensures number { result ≡ side_number side }
    ensures low { result < 512 }
{
    match side {
        Side::Byte(byte) => 2 * u64::from(byte),
        Side::Register(register) => 1 + 2 * u64::from(register),
    }
}

fn compare_number(tag: CompareTag) -> u64
    ensures number { result ≡ compare_number tag }
    ensures low { result < 134217728 }
{
    match tag {
        CompareTag::None => 0,
        CompareTag::Byte(register, side) => {
            1 + 4 * (u64::from(register) + 65_536 * side_number(side))
        }
        CompareTag::Pair(pair, side, high) => {
            2 + 4 * (pair_number(pair, high) + 65_536 * side_number(side))
        }
    }
}

fn zero_number(tag: ZeroTag) -> u64
    ensures number { result ≡ zero_number tag }
    ensures low { result < 1024 }
{
    match tag {
        ZeroTag::None => 0,
        ZeroTag::Byte(register) => 1 + 4 * u64::from(register),
        ZeroTag::Pair(pair) => 2 + 4 * u64::from(pair),
    }
}

#[tactic(auto, using(crate::proofs::Lists::fold_take))]
fn digest_values(start: u64, values: &[AbsByte]) -> u64
    ensures { result ≡ fold mix_value start values.now }
{
    let mut digest = start;
    for value in values {
        digest = mixed(digest, value_number(value));
    }
    digest
}

// This many free slots are skipped at once: most slots of a deep frame are free.
const PASSED: usize = 8;

#[tactic(auto, using(crate::proofs::Passing::step_on, crate::proofs::Passing::pass_on, crate::proofs::Passing::all_done))]
fn digest_slots(start: u64, slots: &[Slot<AbsByte>]) -> u64
    ensures { result ≡ mix_slots start 0 slots.now }
{
    let mut digest = start;
    let mut at = 0;
    while at < slots.len() {
        if are_free(slots, at) {
            at += PASSED;
        } else {
            if let Slot::Guarded(value) = &slots[at] {
                digest = mixed(digest.wrapping_add(at as u64), value_number(value));
            }
            at += 1;
        }
    }
    digest
}

fn are_free(slots: &[Slot<AbsByte>], at: usize) -> bool
    requires { at < length slots.now }
    ensures there { IsTrue result → at + 8 ≤ length slots.now }
    ensures free { IsTrue result → AreFree slots.now at 8 }
{
    if slots.len() - at < PASSED {
        return false;
    }
    for d in 0..PASSED {
        if let Slot::Guarded(_) = &slots[at + d] {
            return false;
        }
    }
    true
}

// Adds the upper half to the number.
fn folded(number: u64) -> u64
    ensures { result ≡ folded number }
{
    number.wrapping_add(number / 4_294_967_296)
}

fn mixed(digest: u64, number: u64) -> u64
    ensures { result ≡ mix digest number }
{
    let sum = digest
        .wrapping_mul(6_364_136_223_846_793_005)
        .wrapping_add(number);
    folded(sum)
}

fn tag_number(tag: Tag) -> u64
    ensures number { result ≡ tag_number tag }
    ensures low { result < 524288 }
{
    match tag {
        Tag::None => 0,
        Tag::Entry(register) => 1 + 8 * u64::from(register),
        Tag::EntryFlags => 2,
        Tag::SpLo(below) => 3 + 8 * u64::from(below),
        Tag::SpHi(below) => 4 + 8 * u64::from(below),
    }
}

fn carry_number(carry: CarryTag) -> u64
    ensures number { result ≡ carry_number carry }
    ensures low { result < 262144 }
{
    match carry {
        CarryTag::None => 0,
        CarryTag::Borrow(low, less) => 1 + 4 * pair_number(low, less),
        CarryTag::Sum(low, more) => 2 + 4 * pair_number(low, more),
        CarryTag::Less(register, below) => 3 + 4 * pair_number(register, below),
    }
}

fn pair_number(low: u8, high: u8) -> u64
    ensures number { result ≡ low + 256 * high }
    ensures low { result < 65536 }
{
    u64::from(low) + 256 * u64::from(high)
}

fn bits_number(bits: TriByte) -> u64
    ensures number { result ≡ bits.known + 256 * bits.value }
    ensures low { result < 65536 }
{
    let TriByte { known, value } = bits;
    pair_number(known, value)
}

fn value_number(value: &AbsByte) -> u64
    ensures { result ≡ value_number value.now }
{
    let AbsByte {
        tag,
        bits,
        low,
        high,
    } = *value;
    tag_number(tag) + 524_288 * (pair_number(low, high) + 65_536 * bits_number(bits))
}

fn flags_number(flags: &AbsFlags) -> u64
    ensures { result ≡ flags_number flags.now }
{
    let AbsFlags { entry, bits, carry } = *flags;
    bits_number(bits) + 65_536 * (u64::from(entry) + 2 * carry_number(carry))
}
