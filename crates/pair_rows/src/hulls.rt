//! The hulls of pairs that an instruction writes.

ghost use Rattle.std.specs.Prelude.{◌≡◌, ◌+◌, ◌*◌, ◌∷◌, []};
ghost use Rattle.avr_model.specs.State.{RAMPZ};
ghost use Rattle.avr_model.specs.Written.{moved_pair, set_by_binary, written};
ghost use Rattle.abs_state.specs.Ended.{written_hull};
ghost use Rattle.pair_rules.specs.Hulls.{all_hulled};

use abs_state::{Registers, hull_written};
use avr_model::instruction::{BinaryOp, ImmediateOp, Instr, Pair, Pointer, Register};
use pair_domain::Facts;

// Sets the interval of a register's pair to the hull of its bytes.
fn hull(facts: &mut Facts, registers: &Registers, r: Register)
    ensures { facts.new ≡ written_hull registers.now r facts.old }
{
    hull_written(facts, registers, usize::from(r.get()));
}

// Sets it for both registers of a pair.
fn hull_pair(facts: &mut Facts, registers: &Registers, n: Pair)
    ensures { facts.new ≡ all_hulled registers.now (2 * n ∷ (2 * n + 1) ∷ []) facts.old }
{
    hull(facts, registers, n.doubled());
    hull(facts, registers, Register::new(2 * n.get() + 1));
}

// Sets it for a pointer that moves.
fn hull_pointer(facts: &mut Facts, registers: &Registers, pointer: Pointer)
    ensures { facts.new ≡ all_hulled registers.now (moved_pair pointer) facts.old }
{
    match pointer {
        Pointer::ZPlus | Pointer::MinusZ => hull_pair(facts, registers, Pair::new(15)),
        Pointer::YPlus | Pointer::MinusY => hull_pair(facts, registers, Pair::new(14)),
        Pointer::X => {}
        Pointer::XPlus | Pointer::MinusX => hull_pair(facts, registers, Pair::new(13)),
    }
}

fn hull_binary(facts: &mut Facts, registers: &Registers, op: BinaryOp, d: Register)
    ensures { facts.new ≡ all_hulled registers.now (set_by_binary op d) facts.old }
{
    match op {
        BinaryOp::Cpc | BinaryOp::Cpse | BinaryOp::Cp => {}
        BinaryOp::Mul => hull_pair(facts, registers, Pair::new(0)),
        _ => hull(facts, registers, d),
    }
}

// Sets it for `elpm` d, Z+. RAMPZ, which is written too, is in no pair.
#[tactic(auto, using(crate::proofs::Banks::bank_stays))]
fn hull_extended(facts: &mut Facts, registers: &Registers, d: Register)
    ensures { facts.new ≡ all_hulled registers.now (d ∷ 30 ∷ 31 ∷ RAMPZ ∷ []) facts.old }
{
    hull(facts, registers, d);
    hull_pair(facts, registers, Pair::new(15));
    facts.kept();
}

/// Sets the interval of each pair that the instruction writes, other than through a data address, to the hull of its bytes.
pub fn hull_by(facts: &mut Facts, registers: &Registers, instr: &Instr)
    ensures { facts.new ≡ all_hulled registers.now (written instr.now) facts.old }
{
    match instr {
        Instr::Movw(d, _) => hull_pair(facts, registers, *d),
        Instr::Muls(_, _)
        | Instr::Mulsu(_, _)
        | Instr::Fmul(_, _)
        | Instr::Fmuls(_, _)
        | Instr::Fmulsu(_, _) => hull_pair(facts, registers, Pair::new(0)),
        Instr::Binary(op, d, _) => hull_binary(facts, registers, *op, *d),
        Instr::Immediate(op, d, _) if *op != ImmediateOp::Cpi => {
            hull(facts, registers, d.widened())
        }
        Instr::Ldd(d, _, _)
        | Instr::Lds(d, _)
        | Instr::LpmZ(d)
        | Instr::ElpmZ(d)
        | Instr::Pop(d)
        | Instr::Unary(_, d)
        | Instr::In(d, _)
        | Instr::Bld(d, _) => hull(facts, registers, *d),
        Instr::Ld(d, pointer) => {
            hull(facts, registers, *d);
            hull_pointer(facts, registers, *pointer);
        }
        Instr::LpmZPlus(d) => {
            hull(facts, registers, *d);
            hull_pair(facts, registers, Pair::new(15));
        }
        Instr::ElpmZPlus(d) => hull_extended(facts, registers, *d),
        Instr::St(pointer, _) => hull_pointer(facts, registers, *pointer),
        Instr::Lpm | Instr::Elpm => hull(facts, registers, Register::new(0)),
        Instr::Adiw(d, _) | Instr::Sbiw(d, _) => hull_pair(facts, registers, d.widened()),
        _ => {}
    }
}
