//! The arithmetic of the AVR instruction set: results and status flags for all operands, as the tables of `avr_model` state them. Source:
//! Instruction Set Manual DS40002198. Tests: `value_tables`.
#![tactic(auto)]

pub mod bitwise;
pub mod product;
pub mod sreg;
pub mod sums;
pub mod word;

pub use crate::bitwise::{com, logic, shift, step_one};
pub use crate::product::mul;
pub use crate::sreg::Sreg;
pub use crate::sums::{add, sub};
pub use crate::word::wide;
pub use avr_model::operation::{Logic, Mul, Shift};
