//! SRAM: its bytes and live marks.

ghost use Rattle.std.specs.Prelude.{◌≡◌, ◌↔◌, ◌<◌, ◌≤◌, ◌+◌, ◌-◌, ◌&&◌, nat_lt, nat_le, false, true, length, take, replicate, IsTrue, if◌then◌else◌};
ghost use Rattle.avr_model.specs.Devices.{io_end, size_of};
ghost use Rattle.avr_model.specs.State.{set_at, byte_in, is_live};
ghost use Rattle.avr_model.specs.Step.{with_live, written, pruned, live_write};

use avr_model::device::{self, Device};
use avr_model::effect::Write;
use std::marker::Model;

/// The number of bytes of the greatest SRAM.
pub const SIZE: usize = device::SIZE as usize;

// Copies the first `count` places; those behind stay.
fn copy_first<T: Copy>(to: &mut [T], from: &[T], count: usize)
    requires to { count ≤ length to.old }
    requires from { count ≤ length from.now }
    ensures copied { take count to.new ≡ take count from.now }
    ensures length { length to.new ≡ length to.old }
{
    to[..count].copy_from_slice(&from[..count]);
}

// Clears all live marks.
fn clear_all(live: &mut [bool])
    ensures { live.new ≡ replicate (length live.old) false }
{
    live.fill(false);
}

/// The bytes of SRAM with live marks: pushed, guarded, and not yet popped. There is room for the greatest SRAM; the first `size` bytes
/// are used.
#[derive(Drop)]
pub struct Memory {
    // The address before the first.
    below: u16,
    size: usize,
    bytes: [u8; SIZE],
    live: [bool; SIZE],
    // No place below this one is live, so a move of the stack pointer clears few places.
    floor: usize,
}

impl Model for Memory {
    ghost use Rattle.std.specs.Prelude.{◌≡◌, ◌≤◌, false, replicate, take};
    ghost use Rattle.avr_model.specs.State.{Memory};

    ghost Value = { Memory };

    ghost view = { λ m. record { below = m.below; bytes = take m.size m.bytes; live = take m.size m.live } };

    ghost invariant = { λ m. (m.below ≤ 0x77FF) × (m.size ≤ 32768) × (take m.floor m.live ≡ replicate m.floor false) };
}

impl Memory {
    /// The memory of a device with the first of these bytes, none of them live.
    pub fn new(device: Device, bytes: &[u8; SIZE]) -> Memory
        ensures { result ≡ record { below = io_end device; bytes = take (size_of device) bytes.now; live = replicate (size_of device) false } }
    {
        Memory {
            below: device.io_end(),
            size: usize::from(device.size()),
            bytes: *bytes,
            live: [false; SIZE],
            floor: 0,
        }
    }

    /// Becomes as another memory. Only the bytes that are used are copied.
    pub fn copy_from(&mut self, other: &Memory)
        ensures { self.new ≡ other.now }
    {
        self.below = other.below;
        self.size = other.size;
        self.floor = other.floor.min(other.size);
        copy_first(&mut self.bytes, &other.bytes, other.size);
        copy_first(&mut self.live, &other.live, other.size);
    }

    /// The address before the first.
    #[inline(always)]
    pub fn below(&self) -> u16
        ensures { result ≡ self.now.below }
    {
        self.below
    }

    /// The last address.
    #[inline(always)]
    pub fn last(&self) -> u16
        ensures { result ≡ self.now.below + length self.now.bytes }
    {
        self.below + self.size as u16
    }

    /// Whether a data address is in SRAM.
    #[inline(always)]
    pub fn has(&self, address: u16) -> bool
        ensures { result ≡ (nat_lt self.now.below address && nat_le address (self.now.below + length self.now.bytes)) }
    {
        self.below < address && address <= self.last()
    }

    /// Whether another memory has the same place, bytes and live marks.
    #[tactic(auto, using(crate::proofs::Alike::memory_is))]
    pub fn is_same(&self, other: &Memory) -> bool
        ensures { IsTrue result ↔ (self.now ≡ other.now) }
    {
        self.below == other.below
            && &self.bytes[..self.size] == &other.bytes[..other.size]
            && &self.live[..self.size] == &other.live[..other.size]
    }

    /// The byte at an address of SRAM.
    #[tactic(auto, using(crate::proofs::Remembering::taken), unfolding(avr_model::specs::State::byte_in))]
    pub fn byte(&self, address: u16) -> u8
        requires above { self.now.below < address }
        requires inside { address - (self.now.below + 1) < length self.now.bytes }
        ensures { result ≡ byte_in self.now.below self.now.bytes address }
    {
        self.bytes[(address - 1 - self.below) as usize]
    }

    /// Whether the byte at an address is live; false outside SRAM.
    #[tactic(auto, using(crate::proofs::Living::has_taken), unfolding(avr_model::specs::State::live_in))]
    #[inline(always)]
    pub fn is_live(&self, address: u16) -> bool
        ensures { result ≡ is_live self.now address }
    {
        self.below < address
            && usize::from(address - 1 - self.below) < self.size
            && self.live[usize::from(address - 1 - self.below)]
    }

    /// Writes a byte; no effect outside SRAM.
    #[tactic(auto, using(crate::proofs::Remembering::set_taken, crate::proofs::Remembering::set_missed), unfolding(avr_model::specs::State::set_at))]
    pub fn set_byte(&mut self, address: u16, byte: u8)
        ensures value { self.new ≡ record self.old { bytes = set_at self.old.below self.old.bytes address byte } }
        ensures size { length self.new.bytes ≡ length self.old.bytes }
        ensures place { self.new.below ≡ self.old.below }
    {
        if self.below < address && usize::from(address - 1 - self.below) < self.size {
            self.bytes[usize::from(address - 1 - self.below)] = byte;
        }
    }

    // Makes a byte live; no effect outside SRAM.
    #[tactic(auto, using(crate::proofs::Living::clear_set, crate::proofs::Living::set_part, crate::proofs::Remembering::set_missed), unfolding(avr_model::specs::State::set_at))]
    fn set_live(&mut self, address: u16)
        ensures { self.new ≡ record self.old { live = set_at self.old.below self.old.live address true } }
    {
        if self.below < address && usize::from(address - 1 - self.below) < self.size {
            let place = usize::from(address - 1 - self.below);
            self.live[place] = true;
            self.floor = self.floor.min(place);
        }
    }

    /// Writes the bytes in order. If `guarded`, they become live.
    pub fn push(&mut self, writes: &[Write], guarded: bool)
        ensures value { self.new ≡ record { below = self.old.below; bytes = written self.old.below self.old.bytes writes.now; live = if guarded then with_live self.old.below self.old.live writes.now else self.old.live } }
        ensures size { length self.new.bytes ≡ length self.old.bytes }
    {
        for write in writes {
            self.set_byte(write.address, write.byte);
            if guarded {
                self.set_live(write.address);
            }
        }
    }

    /// Addresses up to the stack pointer are no longer live.
    #[inline(always)]
    pub fn prune(&mut self, sp: u16)
        ensures { self.new ≡ record self.old { live = pruned self.old.below sp self.old.live } }
    {
        let end = usize::from(sp.saturating_sub(self.below)).min(self.size);
        if self.floor < end {
            clear_all(&mut self.live[self.floor..end]);
            self.floor = end;
        }
    }

    /// The address of the first write onto a live byte.
    #[tactic(auto, unfolding(avr_model::specs::Step::live_write))]
    #[inline(always)]
    pub fn live_write(&self, writes: &[Write]) -> Option<u16>
        ensures { result ≡ live_write self.now writes.now }
    {
        for write in writes {
            if self.is_live(write.address) {
                return Some(write.address);
            }
        }
        None
    }
}
