//! What a machine executes.

use flash_image::Flash;
use vector_table::Assumptions;

/// A firmware with its assumptions.
#[derive(Clone, Copy)]
pub struct Firmware<'a> {
    /// The flash.
    pub flash: &'a Flash,
    /// The assumptions.
    pub assumptions: &'a Assumptions,
}
