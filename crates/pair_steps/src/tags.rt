//! Tags of flags after an instruction, from the state before it.

ghost use Rattle.std.specs.Prelude.{◌≡◌, ◌==◌, ◌+◌, ◌&&◌, if◌then◌else◌};
ghost use Rattle.pair_domain.specs.Tags.{IsNear};
ghost use Rattle.pair_rules.specs.Told.{is_odd};
ghost use Rattle.pair_rules.specs.Tags as given;

use abs_state::Registers;
use avr_model::instruction::{BinaryOp, ImmediateOp, Instr, Register, UnaryOp};
use pair_domain::tags::{down_from, up_from};
use pair_domain::{CompareTag, Facts, PairFacts, Side, SumTag, ZeroTag};
use pair_rows::told::{interval_of, is_odd, value_at};
use pair_rows::{sets_carry, sets_flags};

// The sum tag after a byte from `low` to `high` is added to register `d` if `up`, otherwise subtracted; only for a low byte.
fn sum_of_byte(facts: &PairFacts, up: bool, d: Register, low: u8, high: u8) -> SumTag
    ensures tag { result ≡ (if up then given.sum_of_add facts.now d low high else given.sum_of_sub facts.now d low high) }
    ensures near { IsNear result }
{
    if is_odd(d) {
        return SumTag::None;
    }
    let interval = interval_of(facts, d);
    let (first, last) = (u32::from(interval.low), u32::from(interval.high));
    let (low, high) = (u32::from(low), u32::from(high));
    let d = d.get() as u8;
    if up {
        up_from(d, first + low + 256, last + high + 256)
    } else {
        down_from(d, first + (256 - high), last + (256 - low))
    }
}

fn sum_of(registers: &Registers, facts: &PairFacts, instr: &Instr) -> SumTag
    ensures tag { result ≡ given.sum_of registers.now facts.now instr.now }
    ensures near { IsNear result }
{
    match instr {
        Instr::Binary(op, d, r) => {
            let (low, high) = (value_at(registers, *r).low, value_at(registers, *r).high);
            match op {
                BinaryOp::Add => sum_of_byte(facts, true, *d, low, high),
                BinaryOp::Sub => sum_of_byte(facts, false, *d, low, high),
                _ => SumTag::None,
            }
        }
        Instr::Immediate(op, d, number) if *op == ImmediateOp::Subi => {
            sum_of_byte(facts, false, d.widened(), *number, *number)
        }
        _ => SumTag::None,
    }
}

// Whether `d` is the high byte of the pair with the low byte `x`.
fn is_high_of(d: Register, x: u8) -> bool
    ensures { result ≡ (is_odd d && (x + 1 == d)) }
{
    is_odd(d) && u16::from(x) + 1 == d.get()
}

fn compare_high(tag: CompareTag, d: Register, p: Register) -> CompareTag
    ensures { result ≡ given.compare_high tag d p }
{
    match tag {
        CompareTag::Byte(x, side) if is_high_of(d, x) => CompareTag::Pair(x, side, p.get() as u8),
        _ => CompareTag::None,
    }
}

fn compare_of(facts: &PairFacts, instr: &Instr) -> CompareTag
    ensures { result ≡ given.compare_of facts.now instr.now }
{
    match instr {
        Instr::Binary(op, d, r) => match op {
            BinaryOp::Cp => CompareTag::Byte(d.get() as u8, Side::Register(r.get() as u8)),
            BinaryOp::Cpc => compare_high(facts.compare, *d, *r),
            _ => CompareTag::None,
        },
        Instr::Immediate(op, d, number) if *op == ImmediateOp::Cpi => {
            CompareTag::Byte(d.get() as u8, Side::Byte(*number))
        }
        _ => CompareTag::None,
    }
}

fn zero_high(tag: ZeroTag, d: Register) -> ZeroTag
    ensures { result ≡ given.zero_high tag d }
{
    match tag {
        ZeroTag::Byte(x) if is_high_of(d, x) => ZeroTag::Pair(x),
        _ => ZeroTag::None,
    }
}

fn zero_of(facts: &PairFacts, instr: &Instr) -> ZeroTag
    ensures { result ≡ given.zero_of facts.now instr.now }
{
    match instr {
        Instr::Binary(op, d, _) => match op {
            BinaryOp::Sbc => zero_high(facts.zero, *d),
            BinaryOp::Cpc | BinaryOp::Cpse | BinaryOp::Cp | BinaryOp::Mov | BinaryOp::Mul => {
                ZeroTag::None
            }
            _ => ZeroTag::Byte(d.get() as u8),
        },
        Instr::Immediate(op, d, _) => match op {
            ImmediateOp::Sbci => zero_high(facts.zero, d.widened()),
            ImmediateOp::Cpi | ImmediateOp::Ldi => ZeroTag::None,
            _ => ZeroTag::Byte(d.get() as u8),
        },
        Instr::Unary(op, d) if *op != UnaryOp::Swap => ZeroTag::Byte(d.get() as u8),
        Instr::Adiw(d, _) | Instr::Sbiw(d, _) => ZeroTag::Pair(2 * d.get() as u8),
        _ => ZeroTag::None,
    }
}

/// Sets the tags of the instruction in what its writes left, from the registers and facts before it.
pub fn tag(registers: &Registers, facts: &PairFacts, instr: &Instr, left: &mut Facts)
    ensures { left.new ≡ given.tagged registers.now facts.now instr.now left.old }
{
    left.kept();
    let Some(mut tagged) = left.get() else {
        return;
    };
    if sets_carry(instr) {
        tagged.sum = sum_of(registers, facts, instr);
    }
    if sets_flags(instr) {
        tagged.compare = compare_of(facts, instr);
        tagged.zero = zero_of(facts, instr);
    }
    left.set(tagged);
}
