//! Device hooks: timers and receivers that choose what the machine does next, and the run that they choose. Tests: `machine_tables`.
#![tactic(auto)]

pub mod hook;
pub mod laws;
pub mod peripherals;
mod picking;
mod progress;
mod reading;
mod simulating;
mod trace;
mod walk;

pub use hook::{Hook, Moment};
pub use peripherals::{Peripherals, PeripheralsFault, Source, SourceKind};
pub use simulating::simulation;
pub use trace::{Choices, PeripheralTrace, Repeated};
pub use walk::{Wiring, simulate};
