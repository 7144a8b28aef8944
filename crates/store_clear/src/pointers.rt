//! The least and the greatest number that the pointer at a word may have.

ghost use Rattle.std.specs.Prelude.{◌+◌, ◌*◌, ◌≡◌, ◌<◌, length};
ghost use Rattle.avr_model.specs.Image.{WORDS};
ghost use Rattle.clear_laws.specs.Pointers as pointers;
ghost use Rattle.local_rules.specs.Permitted.{permits_number};
ghost use Rattle.store_clear.specs.ByWord.{IsAskChain};
ghost use Rattle.store_clear.specs.Numbered.{IsEveryNode};
ghost use Rattle.store_clear.specs.Pointers.{ends_of, is_page_met, IsFirstIn, IsLastIn, IsSpanOf, MayHold, around, HoldsBelow, IsPointerOf};

use crate::by_word::ByWord;
use crate::listing::ListedNodes;
use abs_state::AbsState;
use avr_model::instruction::{Base, Instr, LowRegister, Pointer};
use clear_laws::stores::{PointerNumbers, PointerPair, Span};
use local_reads::members::{may_be, permits_number};
use local_rows::registers::pair;
use pair_domain::Interval;
use pair_rows::told::interval_of;

// ---- the pointer of an instruction

fn pair_of_base(base: Base) -> PointerPair
    ensures { result ≡ pointers.pair_of_base base }
{
    match base {
        Base::Y => PointerPair::Y,
        Base::Z => PointerPair::Z,
    }
}

fn pair_of_pointer(pointer: Pointer) -> PointerPair
    ensures { result ≡ pointers.pair_of_pointer pointer }
{
    match pointer {
        Pointer::X | Pointer::XPlus | Pointer::MinusX => PointerPair::X,
        Pointer::YPlus | Pointer::MinusY => PointerPair::Y,
        Pointer::ZPlus | Pointer::MinusZ => PointerPair::Z,
    }
}

// The register pair through which the instruction stores, jumps or calls.
fn pointer_of(instr: &Instr) -> Option<PointerPair>
    ensures { result ≡ pointers.pointer_of instr.now }
{
    match instr {
        Instr::Std(base, _, _) => Some(pair_of_base(*base)),
        Instr::St(pointer, _) => Some(pair_of_pointer(*pointer)),
        Instr::Ijmp | Instr::Icall | Instr::Eijmp | Instr::Eicall => Some(PointerPair::Z),
        _ => None,
    }
}

// The register of its low byte.
fn low_register(pair: PointerPair) -> LowRegister
    ensures { result ≡ pointers.low_register pair }
{
    match pair {
        PointerPair::X => LowRegister::new(26),
        PointerPair::Y => LowRegister::new(28),
        PointerPair::Z => LowRegister::new(30),
    }
}

// ---- one node

// The interval of registers `r` and `r + 1`, of all numbers of 16 bits if pairs aren't followed.
fn interval_in(state: &AbsState, r: LowRegister) -> Interval
    ensures { result ≡ ends_of state.now.facts r }
{
    match state.facts.get() {
        None => Interval {
            low: 0,
            high: 65535,
        },
        Some(facts) => interval_of(&facts, r.widened()),
    }
}

// Whether the high byte of registers `r` and `r + 1` is possible, by its bits and range, and some number of their interval has it. Else no
// number with this high byte needs to be tried.
fn is_page_met(state: &AbsState, r: LowRegister, page: u8) -> bool
    ensures { result ≡ is_page_met state.now r page }
{
    let interval = interval_in(state, r);
    let (_, high) = pair(state, r);
    let (first, last) = (interval.low / 256, interval.high / 256);
    let number = u16::from(page);
    may_be(high, page) && (first <= number && number <= last)
}

// The least number with this high byte that registers `r` and `r + 1` may hold.
fn first_in_page(state: &AbsState, r: LowRegister, page: u8) -> Option<u16>
    ensures { IsFirstIn (permits_number state.now r) (256 * page) (256 * page + 256) result }
{
    if !is_page_met(state, r, page) {
        return None;
    }
    for low in 0..256u16 {
        let number = 256 * u16::from(page) + low;
        if permits_number(state, r, number) {
            return Some(number);
        }
    }
    None
}

// The greatest such number.
fn last_in_page(state: &AbsState, r: LowRegister, page: u8) -> Option<u16>
    ensures { IsLastIn (permits_number state.now r) (256 * page) (256 * page + 256) result }
{
    if !is_page_met(state, r, page) {
        return None;
    }
    for below in 0..256u16 {
        let number = 256 * u16::from(page) + (255 - below);
        if permits_number(state, r, number) {
            return Some(number);
        }
    }
    None
}

// The least number that registers `r` and `r + 1` may hold.
fn first_in(state: &AbsState, r: LowRegister) -> Option<u16>
    ensures { IsFirstIn (permits_number state.now r) 0 65536 result }
{
    for page in 0..256u16 {
        if let Some(number) = first_in_page(state, r, page as u8) {
            return Some(number);
        }
    }
    None
}

// The greatest number that they may hold.
fn last_in(state: &AbsState, r: LowRegister) -> Option<u16>
    ensures { IsLastIn (permits_number state.now r) 0 65536 result }
{
    for below in 0..256u16 {
        if let Some(number) = last_in_page(state, r, (255 - below) as u8) {
            return Some(number);
        }
    }
    None
}

// The least and the greatest number that they may hold.
fn span_in(state: &AbsState, r: LowRegister) -> Option<Span>
    ensures { IsSpanOf (MayHold state.now r) result }
{
    let first = first_in(state, r)?;
    let last = last_in(state, r)?;
    Some(Span { first, last })
}

// ---- all nodes at a word

// All nodes, linked by their words.
#[derive(Clone, Copy)]
pub(crate) struct EveryNode<'a> {
    // The nodes, each with a condition.
    pub told: ListedNodes<'a>,
    // The first node of each word, and after each the next of its word.
    pub links: &'a ByWord,
}

// The least span around both.
fn around(old: Option<Span>, new: Option<Span>) -> Option<Span>
    ensures { result ≡ around old new }
{
    match (old, new) {
        (None, span) => span,
        (Some(span), None) => Some(span),
        (Some(old), Some(new)) => Some(Span {
            first: old.first.min(new.first),
            last: old.last.max(new.last),
        }),
    }
}

// The least and the greatest number that registers `r` and `r + 1` may hold at a word, from its first node on.
fn span_at(
    told: &ListedNodes<'_>,
    first: usize,
    later: &[usize],
    pc: u32,
    r: LowRegister,
) -> Option<Span>
    requires same { length told.now.conditions.now ≡ length told.now.nodes.now }
    requires chain { IsAskChain told.now.nodes.now told.now.conditions.now pc first later.now }
    ensures { IsSpanOf (HoldsBelow told.now.nodes.now told.now.conditions.now pc r (length told.now.conditions.now)) result }
{
    let _count = told.nodes.count();
    let mut span = None;
    let mut at = first;
    while at < told.conditions.len() {
        span = around(span, span_in(told.nodes.state(at), r));
        at = later[at];
    }
    span
}

// The pointer of the instruction at a word, with the least and the greatest number that it may have there.
pub(crate) fn pointer_at(every: &EveryNode<'_>, pc: u32, instr: &Instr) -> Option<PointerNumbers>
    requires every { IsEveryNode every.now.told.nodes.now every.now }
    requires word { pc < WORDS }
    ensures { IsPointerOf every.now.told.nodes.now pc instr.now result }
{
    let pair = pointer_of(instr)?;
    let first = every.links.first[pc as usize];
    let later = every.links.later.as_slice();
    let numbers = span_at(&every.told, first, later, pc, low_register(pair))?;
    Some(PointerNumbers { pair, numbers })
}
