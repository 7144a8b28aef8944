//! Values of registers that are more exact if pairs are followed.

ghost use Rattle.std.specs.Prelude.{◌≡◌, ◌<◌, ◌-◌, ◌*◌, ◌==◌, if◌then◌else◌};
ghost use Rattle.avr_model.specs.State as state;
ghost use Rattle.bit_domain.specs.TriByte.{tri_at, byte_constant};
ghost use Rattle.abs_state.specs.Values as given;
ghost use Rattle.abs_state.specs.PairBytes.{left_in, sets};
ghost use Rattle.pair_rules.specs.Flash as bytes;
ghost use Rattle.pair_rules.specs.Values as values;

use crate::flash_bytes::joined;
use abs_state::{AbsByte, AbsState, PairBytes, Registers};
use avr_model::device::RAMPZ;
use avr_model::instruction::{BinaryOp, Instr, Pair, Register};
use bit_domain::{Tri, TriByte};
use flash_image::Flash;
use pair_domain::PairFacts;
use pair_rows::told::{interval_at, value_at};

// Bit `k`, from 0 to 7, of the byte shifted one place up.
fn doubled_bit(bits: TriByte, low: Tri, k: u8) -> Tri
    requires { k < 8 }
    ensures { result ≡ (if k == 0 then low else tri_at bits (k - 1)) }
{
    if k == 0 { low } else { bits.bit(k - 1) }
}

// Shifts each bit one place up, with a new lowest bit.
fn doubled(bits: TriByte, low: Tri) -> TriByte
    ensures { result ≡ values.doubled bits low }
{
    let mut up = TriByte::any();
    for k in 0..8u8 {
        up = up.with(k, doubled_bit(bits, low, k));
    }
    up
}

// Sets register `d`.
fn set(state: &mut AbsState, d: Register, value: AbsByte)
    ensures { state.new ≡ values.with_value state.old d value }
{
    state.registers[usize::from(d.get())] = value;
}

// The result of an operation with one register as both operands.
fn double(before: &AbsState, op: BinaryOp, d: Register, after: &mut AbsState)
    ensures { after.new ≡ values.doubled_by before.now op d after.old }
{
    let low = match op {
        BinaryOp::Add => Tri::Zero,
        BinaryOp::Adc => before.flags.bits.bit(0),
        _ => return,
    };
    let bits = doubled(value_at(&before.registers, d).bits, low);
    set(after, d, AbsByte::untagged(bits));
}

// The interval and bytes of Z.
fn z_of(before: &AbsState, facts: &PairFacts) -> PairBytes
    ensures { sets result ≡ values.z_of before.now facts.now }
{
    PairBytes {
        low: value_at(&before.registers, Register::new(30)),
        high: value_at(&before.registers, Register::new(31)),
        interval: interval_at(facts, Pair::new(15)),
    }
}

// Sets register `d` to the join of the bytes of a bank of flash that Z permits, if these are few; returns whether there are any.
fn read_flash(
    flash: &Flash,
    bank: u8,
    before: &AbsState,
    facts: &PairFacts,
    d: Register,
    after: &mut AbsState,
) -> bool
    ensures { left_in result after.new ≡ values.flash_read flash.now (65536 * bank) after.old d (bytes.pair_permits (values.z_of before.now facts.now)) }
{
    match joined(flash, bank, z_of(before, facts)) {
        Some(Some(value)) => {
            set(after, d, value);
            true
        }
        Some(None) => false,
        None => true,
    }
}

// The number in RAMPZ, if it is known.
fn rampz_of(registers: &Registers) -> Option<u8>
    ensures { result ≡ byte_constant (given.value_at registers.now state.RAMPZ).bits }
{
    registers[RAMPZ as usize].bits.constant()
}

// The same from the bank in RAMPZ, if it is known.
fn read_extended(
    flash: &Flash,
    before: &AbsState,
    facts: &PairFacts,
    d: Register,
    after: &mut AbsState,
) -> bool
    ensures { left_in result after.new ≡ values.extended_read flash.now (values.rampz_of before.now) after.old d (bytes.pair_permits (values.z_of before.now facts.now)) }
{
    match rampz_of(&before.registers) {
        Some(bank) => read_flash(flash, bank, before, facts, d, after),
        None => true,
    }
}

/// Sets the values of registers that are more exact with pairs, from the state and facts before the instruction. Returns whether anything
/// is left.
pub fn retell(
    flash: &Flash,
    before: &AbsState,
    facts: &PairFacts,
    instr: &Instr,
    after: &mut AbsState,
) -> bool
    ensures { left_in result after.new ≡ values.retold flash.now before.now facts.now instr.now after.old }
{
    match instr {
        Instr::Binary(op, d, r) => {
            if *d == *r {
                double(before, *op, *d, after);
            }
            true
        }
        Instr::LpmZ(d) => read_flash(flash, 0, before, facts, *d, after),
        Instr::LpmZPlus(d) => read_flash(flash, 0, before, facts, *d, after),
        Instr::Lpm => read_flash(flash, 0, before, facts, Register::new(0), after),
        Instr::ElpmZ(d) => read_extended(flash, before, facts, *d, after),
        Instr::ElpmZPlus(d) => read_extended(flash, before, facts, *d, after),
        Instr::Elpm => read_extended(flash, before, facts, Register::new(0), after),
        _ => true,
    }
}
