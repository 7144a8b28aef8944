//! A device with marks of the data addresses at which its vectors are enabled or moved, and with the shape of its stack.

ghost use Rattle.std.specs.Prelude.{◌≡◌, ◌==◌, ◌<◌, ◌≤◌, ◌+◌, ◌||◌, ℕ, false, slice_index_or, IfSome};
ghost use Rattle.avr_model.specs.Devices.{io_base, back_of, has_sph, sp_count, sreg_address};
ghost use Rattle.avr_model.specs.State.{REGISTERS, register_at, special, plus_sp, minus_sp};
ghost use Rattle.avr_model.specs.Vectors.{has_enables};
ghost use Rattle.vector_table.specs.Moving.{is_at, has_moving};

use avr_model::device::{Device, EIND, GUARDED, RAMPZ, Special};
use avr_model::rows::MovingPlace;
use std::marker::Model;

// The data addresses that may have a mark.
const MARKS: usize = GUARDED as usize;

/// A device with a mark for each data address that has an enable bit or a moving bit, and with the numbers of its stack, so that few look-ups go
/// through the tables. Seen as the device.
#[derive(Drop)]
pub struct MarkedDevice {
    device: Device,
    marks: [bool; MARKS],
    // The data address of I/O address 0.
    base: u16,
    back: u8,
    // The greatest stack pointer: a mask of stack pointers.
    top: u16,
}

impl Model for MarkedDevice {
    ghost use Rattle.std.specs.Prelude.{ℕ, ◌≡◌, ◌+◌, ◌||◌, false, slice_index_or};
    ghost use Rattle.avr_model.specs.declared.device.Device.{Device};
    ghost use Rattle.avr_model.specs.Devices.{io_base, back_of, sp_count};
    ghost use Rattle.avr_model.specs.Vectors.{has_enables};
    ghost use Rattle.vector_table.specs.Moving.{has_moving};

    ghost Value = { Device };

    ghost view = { λ m. m.device };

    ghost invariant = { λ m. ((a : ℕ) → slice_index_or m.marks a false ≡ (has_enables m.device a || has_moving m.device a)) × (m.base ≡ io_base m.device) × (m.back ≡ back_of m.device) × (m.top + 1 ≡ sp_count m.device) };
}

// Marks the address of a place that moves vectors.
fn mark_place(place: Option<MovingPlace>, marks: &mut [bool; MARKS])
    requires { IfSome place (λ p. p.address < 4101) }
    ensures { (a : ℕ) → slice_index_or marks.new a false ≡ (slice_index_or marks.old a false || is_at place a) }
{
    if let Some(moving) = place {
        marks[usize::from(moving.address)] = true;
    }
}

// Marks the addresses of the places that move vectors, too.
fn mark_moving(device: Device, marks: &mut [bool; MARKS])
    ensures { (a : ℕ) → slice_index_or marks.new a false ≡ (slice_index_or marks.old a false || has_moving device a) }
{
    let places = device.moving();
    mark_place(places[0], marks);
    mark_place(places[1], marks);
}

// The greatest number that the stack pointer can hold.
fn greatest_sp(device: Device) -> u16
    ensures { result + 1 ≡ sp_count device }
{
    if device.has_sph() { 0xFFFF } else { 0xFF }
}

impl MarkedDevice {
    /// The device with its marks.
    pub fn new(device: Device) -> MarkedDevice
        ensures { result ≡ device }
    {
        let mut marks = [false; MARKS];
        for place in device.enable_places() {
            marks[usize::from(place.address)] = true;
        }
        mark_moving(device, &mut marks);
        MarkedDevice {
            device,
            marks,
            base: device.io_base(),
            back: device.back(),
            top: greatest_sp(device),
        }
    }

    /// Becomes as another one.
    pub fn copy_from(&mut self, other: &MarkedDevice)
        ensures { self.new ≡ other.now }
    {
        self.device = other.device;
        self.marks = other.marks;
        self.base = other.base;
        self.back = other.back;
        self.top = other.top;
    }

    /// The device.
    #[inline(always)]
    pub fn get(&self) -> Device
        ensures { result ≡ self.now }
    {
        self.device
    }

    /// The data address of I/O address 0, at most 0x20.
    #[tactic(auto, using(crate::proofs::Popping::most_base))]
    #[inline(always)]
    pub fn io_base(&self) -> u16
        ensures exact { result ≡ io_base self.now }
        ensures most { result ≤ 0x20 }
    {
        self.base
    }

    /// The register at a data address: r0 to r31 where they have data addresses, RAMPZ or EIND.
    #[inline(always)]
    pub fn register_at(&self, address: u16) -> Option<u16>
        ensures exact { result ≡ register_at self.now address }
        ensures small { IfSome result (λ r. r < REGISTERS) }
    {
        let base = self.io_base();
        if address < base {
            Some(address)
        } else if address == base + 0x3B && self.device.has_elpm() {
            Some(RAMPZ)
        } else if address == base + 0x3C && self.device.has_eijmp() {
            Some(EIND)
        } else {
            None
        }
    }

    /// What a data address is of the stack pointer and the status register.
    #[inline(always)]
    pub fn special(&self, address: u16) -> Option<Special>
        ensures { result ≡ special self.now address }
    {
        let base = self.io_base();
        if address == base + 0x3D {
            Some(Special::Spl)
        } else if address == base + 0x3E && self.has_sph() {
            Some(Special::Sph)
        } else if address == base + 0x3F {
            Some(Special::Sreg)
        } else {
            None
        }
    }

    /// Whether a data address is the status register's.
    #[inline(always)]
    pub fn is_sreg(&self, address: u16) -> bool
        ensures { result ≡ (address == sreg_address self.now) }
    {
        address == self.io_base() + 0x3F
    }

    /// The number of bytes in which a word address is pushed, 2 or 3.
    #[tactic(auto, using(crate::proofs::Popping::least_back, crate::proofs::Popping::most_back))]
    #[inline(always)]
    pub fn back(&self) -> u8
        ensures exact { result ≡ back_of self.now }
        ensures least { 2 ≤ result }
        ensures most { result ≤ 3 }
    {
        self.back
    }

    /// Whether the stack pointer has a high byte, SPH.
    #[inline(always)]
    pub fn has_sph(&self) -> bool
        ensures { result ≡ has_sph self.now }
    {
        self.top > 0xFF
    }

    /// The stack pointer this many addresses further up, modulo the numbers that it can hold.
    #[tactic(auto, using(crate::proofs::Popping::up))]
    #[inline(always)]
    pub fn plus_sp(&self, sp: u16, count: u8) -> u16
        ensures { result ≡ plus_sp self.now sp count }
    {
        sp.wrapping_add(u16::from(count)) & self.top
    }

    /// The stack pointer this many addresses further down, modulo the numbers that it can hold.
    #[tactic(auto, using(crate::proofs::Popping::down))]
    #[inline(always)]
    pub fn minus_sp(&self, sp: u16, count: u8) -> u16
        ensures { result ≡ minus_sp self.now sp count }
    {
        sp.wrapping_sub(u16::from(count)) & self.top
    }

    /// Whether a data address has an enable bit or a moving bit.
    #[inline(always)]
    pub fn is_marked(&self, address: u16) -> bool
        ensures { result ≡ (has_enables self.now address || has_moving self.now address) }
    {
        usize::from(address) < MARKS && self.marks[usize::from(address)]
    }
}
