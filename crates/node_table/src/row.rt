//! Rows of the table: a node with the words of firmware there, and its state.

ghost use Rattle.std.specs.Prelude.{◌≤◌, ◌+◌, ◌*◌};
ghost use Rattle.avr_model.specs.Devices.{limit_of};

use abs_state::{AbsByte, AbsFlags, AbsState};
use avr_model::device::Device;
use avr_model::naming::device_named;
use bit_domain::TriByte;
use flash_image::Flash;
use node_keys::{High, InstKey, Kind, NodeKey, SpForm};
use pair_domain::Facts;
use sp_domain::{CarryTag, Slot, Slots, Tag};
use std::alloc::{AllocError, Global};
use vector_table::Masks;

/// A node of the table.
#[derive(Drop)]
pub struct Row {
    // The word at the node and the three after it.
    words: [u16; 4],
    /// Its device.
    pub device: Device,
    /// Its key.
    pub key: NodeKey,
    /// Its state.
    pub state: AbsState,
}

// A hexadecimal number of at most four digits.
fn number(text: &str) -> Option<u16> {
    u16::from_str_radix(text, 16).ok()
}

// A word address, in hexadecimal.
fn word(text: &str) -> Option<u32> {
    u32::from_str_radix(text, 16).ok()
}

fn decimal(text: &str) -> Option<u16> {
    u16::from_str_radix(text, 10).ok()
}

// `root`, `call`, or `v` and a vector's number.
fn kind(text: &str) -> Option<Kind> {
    if text == "root" {
        return Some(Kind::Root);
    }
    if text == "call" {
        return Some(Kind::Call);
    }
    let vector = decimal(text.strip_prefix('v')?)?;
    if vector <= 77 {
        Some(Kind::Vector(vector as u8))
    } else {
        None
    }
}

// `c` and the offset; or `o`, the offset of the low byte, a comma, and `k` with a known high byte or `t` with the number of its tag.
fn form(text: &str) -> Option<SpForm> {
    let Some((offset, high)) = text.split_once(',') else {
        return Some(SpForm::Closed(decimal(text.strip_prefix('c')?)?));
    };
    let offset = decimal(offset.strip_prefix('o')?)?;
    let high = match high.strip_prefix('k') {
        Some(known) => High::Known(u8::from_str_radix(known, 16).ok()?),
        None => High::Tag(number(high.strip_prefix('t')?)?),
    };
    Some(SpForm::Open(offset, high))
}

// A value as certificates spell it: the tag `-`, `f`, `e` with a register, `l` with a byte or `h` with a number, and two digits each for
// the known bits, their values, and the least and the greatest byte.
fn value(text: &str) -> Option<AbsByte> {
    let (front, digits) = text.split_at_checked(text.len().checked_sub(8)?)?;
    let [known, value, low, high] = u32::from_str_radix(digits, 16).ok()?.to_be_bytes();
    let tag = if front == "-" {
        Tag::None
    } else if front == "f" {
        Tag::EntryFlags
    } else if let Some(r) = front.strip_prefix('e') {
        Tag::Entry(u8::from_str_radix(r, 16).ok()?)
    } else if let Some(j) = front.strip_prefix('l') {
        Tag::SpLo(u8::from_str_radix(j, 16).ok()?)
    } else {
        Tag::SpHi(number(front.strip_prefix('h')?)?)
    };
    Some(AbsByte {
        tag,
        bits: TriByte::new(known, value),
        low,
        high,
    })
}

// `b` or `s`, and two digits each for the low byte of the number below the base, and for the byte that is subtracted or added; or `c`,
// and two digits each for a register and the number that it is compared with.
fn carry(text: &str) -> Option<CarryTag> {
    let (kind, digits) = text.split_at_checked(1)?;
    let [first, second] = number(digits)?.to_be_bytes();
    if kind == "b" {
        Some(CarryTag::Borrow(first, second))
    } else if kind == "s" {
        Some(CarryTag::Sum(first, second))
    } else if kind == "c" {
        Some(CarryTag::Less(first, second))
    } else {
        None
    }
}

impl Row {
    // A node at word 0 of the ATmega328P with this many free slots, RAMPZ and EIND 0, and nothing else known.
    fn new(alloc: Global, words: [u16; 4], kind: Kind, sp: SpForm) -> Result<Row, AllocError> {
        let mut slots = Slots::new(alloc);
        slots.resize(sp.offset())?;
        let mut registers = [AbsByte::unknown(); 34];
        registers[32] = AbsByte::known(0);
        registers[33] = AbsByte::known(0);
        let inst = InstKey {
            kind,
            entry: 0,
            masks: Masks::none(),
            i: false,
        };
        Ok(Row {
            words,
            device: Device::M328,
            key: NodeKey {
                sp,
                ..NodeKey::entry(&inst)
            },
            state: AbsState {
                registers,
                flags: AbsFlags {
                    entry: false,
                    bits: TriByte::any(),
                    carry: CarryTag::None,
                },
                slots,
                facts: Facts::none(),
            },
        })
    }

    // Sets the value of a register, or a slot; `.` stands for a free slot.
    fn set_byte(&mut self, name: &str, text: &str) -> Option<()> {
        if let Some(r) = name.strip_prefix('r') {
            let value = value(text)?;
            *self.state.registers.get_mut(usize::from(decimal(r)?))? = value;
            return Some(());
        }
        let d = decimal(name.strip_prefix('s')?)?;
        if d >= self.state.slots.len() {
            return None;
        }
        let slot = if text == "." {
            Slot::Free
        } else {
            Slot::Guarded(value(text)?)
        };
        self.state.slots.set(d, slot);
        Some(())
    }

    // Sets what a word says of the node. A word that is a name alone has no text, and sets a flag.
    fn set(&mut self, name: &str, text: &str) -> Option<()> {
        if name == "i" {
            self.key.i = true;
        } else if name == "delay" {
            self.key.delay = true;
        } else if name == "entry" {
            self.state.flags.entry = true;
        } else if name == "pc" {
            self.key.pc = word(text)?;
        } else if name == "behind" {
            let (third, fourth) = text.split_once(',').unwrap_or((text, "FFFF"));
            self.words[2] = number(third)?;
            self.words[3] = number(fourth)?;
        } else if name == "masks" {
            self.key.masks = Masks::from_bits(u128::from_str_radix(text, 16).ok()?);
        } else if name == "device" {
            self.device = device_named(text.as_bytes())?;
        } else if name == "pick" {
            self.key.pick = Some(u8::from_str_radix(text, 16).ok()?);
        } else if name == "flags" {
            let [known, value] = number(text.strip_prefix('-')?)?.to_be_bytes();
            self.state.flags.bits = TriByte::new(known, value);
        } else if name == "carry" {
            self.state.flags.carry = carry(text)?;
        } else {
            return self.set_byte(name, text);
        }
        Some(())
    }

    // Sets what the words after the heading say.
    fn set_all(&mut self, text: &str) -> Option<()> {
        for word in text.split(' ').skip(4) {
            let (name, text) = word.split_once('=').unwrap_or((word, ""));
            self.set(name, text)?;
        }
        Some(())
    }

    // The byte address of a word this many words from the node, modulo the number of words.
    #[tactic(auto, using(avr_model::proofs::AllLaws::devices_are_alike))]
    fn address(&self, words: u8) -> u32
        ensures { result + 2 ≤ 2 * limit_of self.now.device }
    {
        2 * self.device.wrap(self.key.pc.wrapping_add(u32::from(words)))
    }

    /// The device's flash with the four words at the node, modulo the number of its words, and erased words elsewhere.
    pub fn flash(&self, alloc: Global) -> Result<Option<Flash>, AllocError> {
        let [first, second, third, fourth] = self.words;
        let mut flash = Flash::erased(alloc, self.device)?;
        flash.place(self.address(0), &first.to_le_bytes());
        flash.place(self.address(1), &second.to_le_bytes());
        flash.place(self.address(2), &third.to_le_bytes());
        flash.place(self.address(3), &fourth.to_le_bytes());
        Ok(flash.narrow(self.device).ok())
    }
}

// The first and the second word, then kind and stack pointer.
fn heading(text: &str) -> Option<(u16, u16, Kind, SpForm)> {
    let mut words = text.split(' ');
    let (first, second) = (number(words.next()?)?, number(words.next()?)?);
    Some((first, second, kind(words.next()?)?, form(words.next()?)?))
}

/// The row of a line. None if it isn't one.
pub fn read(alloc: Global, text: &str) -> Result<Option<Row>, AllocError> {
    let Some((first, second, kind, sp)) = heading(text) else {
        return Ok(None);
    };
    // Further words are erased, unless they are given.
    let words = [first, second, 0xFFFF, 0xFFFF];
    let mut row = Row::new(alloc, words, kind, sp)?;
    match row.set_all(text) {
        Some(()) => Ok(Some(row)),
        None => Ok(None),
    }
}
