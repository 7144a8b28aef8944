//! Transfer function of the pair domain: the interval of one pair after an instruction, from the state before it.

ghost use Rattle.std.specs.Prelude.{◌≡◌, ◌/◌, if◌then◌else◌};
ghost use Rattle.pair_domain.specs.Rows as rows;
ghost use Rattle.abs_state.specs.Values.{value_at};
ghost use Rattle.pair_domain.specs.Facts.{interval_at};
ghost use Rattle.pair_rules.specs.Told.{interval_of, is_odd, computed, computed_high, told_pointer, told_binary, told_immediate, told_by};

use crate::rows::{carried, moved, paged, product};
use abs_state::{AbsByte, Registers};
use avr_model::instruction::{BinaryOp, ImmediateOp, Instr, Pair, Pointer, Register};
use pair_domain::{Interval, PairFacts};
use pair_rules::Told;

/// The value of a register.
pub fn value_at(registers: &Registers, r: Register) -> AbsByte
    ensures { result ≡ value_at registers.now r }
{
    registers[usize::from(r.get())]
}

/// The interval of a pair.
pub fn interval_at(facts: &PairFacts, n: Pair) -> Interval
    ensures { result ≡ interval_at facts.now.intervals n }
{
    facts.intervals[usize::from(n.get())]
}

/// The pair of this register.
pub fn pair_of(r: Register) -> Pair
    ensures { result ≡ r / 2 }
{
    Pair::new(r.get() / 2)
}

/// The interval of the pair of this register.
pub fn interval_of(facts: &PairFacts, r: Register) -> Interval
    ensures { result ≡ interval_of facts.now r }
{
    interval_at(facts, pair_of(r))
}

/// Whether this register is a high byte.
pub fn is_odd(r: Register) -> bool
    ensures { result ≡ is_odd r }
{
    r.get() % 2 == 1
}

// A computed interval of a pair, if there is one.
fn computed(n: Pair, interval: Option<Interval>) -> Told
    ensures { result ≡ computed n interval }
{
    match interval {
        Some(interval) => Told::Computed(n, interval),
        None => Told::Nothing,
    }
}

// A computed interval of this register's pair, if the register is its high byte.
fn computed_high(d: Register, interval: Option<Interval>) -> Told
    ensures { result ≡ computed_high d interval }
{
    if is_odd(d) {
        computed(pair_of(d), interval)
    } else {
        Told::Nothing
    }
}

// The interval of a pair that grows by a number if `up`, otherwise falls.
fn told_wide(facts: &PairFacts, n: Pair, up: bool, number: u8) -> Told
    ensures { result ≡ computed n (if up then rows.moved_up (interval_at facts.now.intervals n) number else rows.moved_down (interval_at facts.now.intervals n) number) }
{
    computed(n, moved(interval_at(facts, n), up, number))
}

// The interval of the pointer of a load or store, which moves by one, unless the instruction sets one of its registers: `d`, or 32, which
// is in no pair.
fn told_pointer(facts: &PairFacts, d: u16, pointer: Pointer) -> Told
    ensures { result ≡ told_pointer facts.now d pointer }
{
    let (n, up) = match pointer {
        Pointer::ZPlus => (Pair::new(15), true),
        Pointer::MinusZ => (Pair::new(15), false),
        Pointer::YPlus => (Pair::new(14), true),
        Pointer::MinusY => (Pair::new(14), false),
        Pointer::X => return Told::Nothing,
        Pointer::XPlus => (Pair::new(13), true),
        Pointer::MinusX => (Pair::new(13), false),
    };
    if d / 2 == n.get() {
        Told::Nothing
    } else {
        told_wide(facts, n, up, 1)
    }
}

fn told_binary(
    registers: &Registers,
    facts: &PairFacts,
    op: BinaryOp,
    d: Register,
    r: Register,
) -> Told
    ensures { result ≡ told_binary registers.now facts.now op d r }
{
    let (low, high) = (value_at(registers, r).low, value_at(registers, r).high);
    match op {
        BinaryOp::Add => computed_high(d, paged(interval_of(facts, d), true, low, high)),
        BinaryOp::Adc => computed_high(d, carried(facts.sum, true, d, low, high)),
        BinaryOp::Sub => computed_high(d, paged(interval_of(facts, d), false, low, high)),
        BinaryOp::Sbc => computed_high(d, carried(facts.sum, false, d, low, high)),
        // The pair keeps its interval if a register is combined with itself by AND or OR.
        BinaryOp::And | BinaryOp::Or if d == r => Told::Kept(pair_of(d), interval_of(facts, d)),
        BinaryOp::Mul => {
            let value = value_at(registers, d);
            Told::Computed(Pair::new(0), product(value.low, value.high, low, high))
        }
        _ => Told::Nothing,
    }
}

fn told_immediate(facts: &PairFacts, op: ImmediateOp, d: Register, number: u8) -> Told
    ensures { result ≡ told_immediate facts.now op d number }
{
    match op {
        ImmediateOp::Subi => computed_high(d, paged(interval_of(facts, d), false, number, number)),
        ImmediateOp::Sbci => computed_high(d, carried(facts.sum, false, d, number, number)),
        _ => Told::Nothing,
    }
}

/// The interval of one pair after the instruction, from the registers and facts before it.
pub fn told_by(registers: &Registers, facts: &PairFacts, instr: &Instr) -> Told
    ensures { result ≡ told_by registers.now facts.now instr.now }
{
    match instr {
        Instr::Movw(d, r) => Told::Kept(*d, interval_at(facts, *r)),
        Instr::Binary(op, d, r) => told_binary(registers, facts, *op, *d, *r),
        Instr::Immediate(op, d, number) => told_immediate(facts, *op, d.widened(), *number),
        Instr::Adiw(d, number) => told_wide(facts, d.widened(), true, number.get() as u8),
        Instr::Sbiw(d, number) => told_wide(facts, d.widened(), false, number.get() as u8),
        Instr::Ld(d, pointer) => told_pointer(facts, d.get(), *pointer),
        Instr::St(pointer, _) => told_pointer(facts, 32, *pointer),
        Instr::LpmZPlus(d) | Instr::ElpmZPlus(d) => told_pointer(facts, d.get(), Pointer::ZPlus),
        _ => Told::Nothing,
    }
}
