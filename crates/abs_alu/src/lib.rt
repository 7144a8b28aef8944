//! The arithmetic of the AVR instruction set on three-valued bytes. A result stands for the machine's for each choice of members of the
//! operands and flags. The status register is a three-valued byte too. Rules: own, bit by bit with the three-valued bits of Regehr, Reid
//! and Webb; flags: Instruction Set Manual DS40002198. Tests: `value_tables`.
#![tactic(auto)]

pub mod bitwise;
mod flags;
pub mod laws;
pub mod product;
pub mod sums;
pub mod words;

pub use bitwise::{com, logic, shift, step_one};
pub use product::mul;
pub use sums::{add, sub};
pub use words::wide;
