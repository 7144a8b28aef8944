//! The machine as code: one step at a time, with the answer and the state that `avr_model` defines. Tests: `machine_tables`.
#![tactic(auto)]

mod arithmetic;
mod bits;
mod effects;
mod firmware;
mod flags;
mod machine;
mod marked_device;
mod memory;
mod menu;
mod pieces;
mod processor;
mod pushes;
mod stepping;
mod stores;
mod transfers;

pub use avr_alu::Sreg;
pub use avr_model::choice::{Choice, Flag, StepResult, Stop};
pub use firmware::Firmware;
pub use flash_image::{Device, Flash};
pub use machine::Machine;
pub use menu::Menu;
pub use vector_table::{Assumptions, Entry, Listed, Masks};
