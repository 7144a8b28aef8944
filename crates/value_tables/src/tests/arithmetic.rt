//! The rows of `sums` and `bits`, each against its call, from a register with all flags clear and from one with all set.

mod bits;
mod sums;

use avr_alu::{Logic, Mul, Shift, Sreg, add, com, logic, mul, shift, step_one, sub, wide};
pub use bits::TABLES as BITS;
use row_tests::WorkedRow;
use std::alloc::Global;
pub use sums::TABLES as SUMS;

/// A call of the arithmetic. The flag, if true, means a difference that keeps Z, an increment, or a word that is raised.
pub enum Operation {
    Sum,
    Difference(bool),
    Logic(Logic),
    Complement,
    Step(bool),
    Shift(Shift),
    Wide(bool),
    Product(Mul),
}

pub const ADC: Operation = Operation::Sum;

pub const SUB: Operation = Operation::Difference(false);

pub const SBC: Operation = Operation::Difference(true);

pub const ADIW: Operation = Operation::Wide(true);

pub const SBIW: Operation = Operation::Wide(false);

pub const AND: Operation = Operation::Logic(Logic::And);

pub const OR: Operation = Operation::Logic(Logic::Or);

pub const EOR: Operation = Operation::Logic(Logic::Eor);

pub const COM: Operation = Operation::Complement;

pub const INC: Operation = Operation::Step(true);

pub const DEC: Operation = Operation::Step(false);

pub const LSR: Operation = Operation::Shift(Shift::Lsr);

pub const ROR: Operation = Operation::Shift(Shift::Ror);

pub const ASR: Operation = Operation::Shift(Shift::Asr);

pub const MUL: Operation = Operation::Product(Mul::Mul);

pub const MULS: Operation = Operation::Product(Mul::Muls);

pub const MULSU: Operation = Operation::Product(Mul::Mulsu);

pub const FMUL: Operation = Operation::Product(Mul::Fmul);

pub const FMULS: Operation = Operation::Product(Mul::Fmuls);

pub const FMULSU: Operation = Operation::Product(Mul::Fmulsu);

/// The operation and its operands; the result with SREG after it, from all flags clear and from all set.
pub struct Row(Operation, u16, u8, bool, [u16; 2], [u16; 2]);

fn of_byte((byte, s): (u8, Sreg)) -> [u16; 2] {
    [u16::from(byte), u16::from(s.bits())]
}

fn of_word((word, s): (u16, Sreg)) -> [u16; 2] {
    [word, u16::from(s.bits())]
}

fn found(row: &Row, s: Sreg) -> [u16; 2] {
    let (word, b, carry) = (row.1, row.2, row.3);
    let a = word.to_le_bytes()[0];
    match &row.0 {
        Operation::Sum => of_byte(add(a, b, carry, s)),
        Operation::Difference(keep) => of_byte(sub(a, b, carry, *keep, s)),
        Operation::Logic(op) => of_byte(logic(*op, a, b, s)),
        Operation::Complement => of_byte(com(a, s)),
        Operation::Step(up) => of_byte(step_one(*up, a, s)),
        Operation::Shift(op) => of_byte(shift(*op, a, s)),
        Operation::Wide(up) => of_word(wide(*up, word, b, s)),
        Operation::Product(op) => of_word(mul(*op, a, b, s)),
    }
}

impl WorkedRow for Row {
    fn holds(&self, _alloc: Global) -> bool {
        found(self, Sreg(0x00)) == self.4 && found(self, Sreg(0xFF)) == self.5
    }
}
