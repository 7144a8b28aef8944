//! Which instructions set flags.

ghost use Rattle.std.specs.Prelude.{◌≡◌};
ghost use Rattle.abs_state.specs.FlagsSet as set;

use avr_model::instruction::{BinaryOp, ImmediateOp, Instr, UnaryOp};

/// Whether the instruction sets some flag but I.
pub fn sets_flags(instr: &Instr) -> bool
    ensures { result ≡ set.sets_flags instr.now }
{
    match *instr {
        Instr::Muls(_, _)
        | Instr::Mulsu(_, _)
        | Instr::Fmul(_, _)
        | Instr::Fmuls(_, _)
        | Instr::Fmulsu(_, _) => true,
        Instr::Binary(op, _, _) => !matches!(&op, BinaryOp::Cpse | BinaryOp::Mov),
        Instr::Immediate(op, _, _) => op != ImmediateOp::Ldi,
        Instr::Unary(op, _) => op != UnaryOp::Swap,
        Instr::Adiw(_, _) | Instr::Sbiw(_, _) => true,
        Instr::Bset(flag) | Instr::Bclr(flag) => flag.get() != 7,
        Instr::Bst(_, _) => true,
        _ => false,
    }
}

/// Whether the instruction sets C.
pub fn sets_carry(instr: &Instr) -> bool
    ensures { result ≡ set.sets_carry instr.now }
{
    match *instr {
        Instr::Muls(_, _)
        | Instr::Mulsu(_, _)
        | Instr::Fmul(_, _)
        | Instr::Fmuls(_, _)
        | Instr::Fmulsu(_, _) => true,
        Instr::Binary(op, _, _) => !matches!(
            &op,
            BinaryOp::Cpse | BinaryOp::And | BinaryOp::Eor | BinaryOp::Or | BinaryOp::Mov
        ),
        Instr::Immediate(op, _, _) => {
            !matches!(&op, ImmediateOp::Ori | ImmediateOp::Andi | ImmediateOp::Ldi)
        }
        Instr::Unary(op, _) => !matches!(&op, UnaryOp::Swap | UnaryOp::Inc | UnaryOp::Dec),
        Instr::Adiw(_, _) | Instr::Sbiw(_, _) => true,
        Instr::Bset(flag) | Instr::Bclr(flag) => flag.get() == 0,
        _ => false,
    }
}
