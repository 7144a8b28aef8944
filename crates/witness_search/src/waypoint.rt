//! Interrupts of a chain of entries, and when they are due.

ghost use Rattle.std.specs.Prelude.{◌≡◌};
ghost use Rattle.witness_search.specs.Waypoints.{fits_way, is_due};

use avr_machine::{Choice, Menu};
use vector_table::Masks;

/// An interrupt, and the place at which to take it.
#[derive(Clone, Copy)]
pub struct Waypoint {
    /// The enable bits, or if keys have what may be enabled, the set that includes them.
    pub masks: Masks,
    /// The program counter.
    pub pc: u32,
    /// The number of bytes between the stack pointer and its place at reset.
    pub depth: u16,
    /// The stack pointer's place at reset: the last address of the device's SRAM.
    pub end: u16,
    /// The vector.
    pub vector: u8,
    /// Whether the vector's own enable bit is cleared then.
    pub clears: bool,
}

// Whether the enable bits equal the waypoint's, or if `may`, are among them.
fn fits_way(may: bool, enables: Masks, masks: Masks) -> bool
    ensures { result ≡ fits_way may enables masks }
{
    if may {
        enables.is_among(masks)
    } else {
        enables.bits() == masks.bits()
    }
}

/// Whether the menu is at the waypoint and has its interrupt. `may` says whether keys have what may be enabled.
pub fn is_due(may: bool, point: &Waypoint, menu: &Menu) -> bool
    ensures { result ≡ is_due may point.now menu.now }
{
    menu.pc == point.pc
        && fits_way(may, menu.masks, point.masks)
        && u32::from(menu.sp) + u32::from(point.depth) == u32::from(point.end)
        && menu.has(Choice::Take(point.vector, point.clears))
}
