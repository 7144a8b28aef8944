//! Constants that two instructions use with a register pair.

ghost use Rattle.std.specs.Prelude.{◌≡◌, ◌<◌, IfSome};
ghost use Rattle.avr_model.specs.Marks.{immediate_of, is_pair, other_side};

use avr_model::instruction::{BinaryOp, ImmediateInstr, ImmediateOp, Instr};

/// The instruction, if it has a register and a byte as operands.
pub fn immediate(instr: &Instr) -> Option<ImmediateInstr>
    ensures value { result ≡ immediate_of instr.now }
    ensures register { IfSome result (λ found. found.register < 32) }
{
    match *instr {
        Instr::Immediate(op, register, byte) => Some(ImmediateInstr {
            op,
            register: register.get(),
            byte,
        }),
        _ => None,
    }
}

/// Whether two registers are a pair, the low one first: an even register and the next one.
pub fn is_pair(low: u16, high: u16) -> bool
    ensures { result ≡ is_pair low high }
{
    low % 2 == 0 && high == low + 1
}

/// The register with which `cpc` compares the high register of a pair after a `cpi` of the low one; `None` for other instructions.
pub fn other_side(first: ImmediateInstr, next: &Instr) -> Option<u16>
    ensures value { result ≡ other_side first next.now }
    ensures register { IfSome result (λ side. side < 32) }
{
    match *next {
        Instr::Binary(op, high, side) => {
            if matches!(first.op, ImmediateOp::Cpi)
                && matches!(op, BinaryOp::Cpc)
                && is_pair(first.register, high.get())
            {
                Some(side.get())
            } else {
                None
            }
        }
        _ => None,
    }
}
