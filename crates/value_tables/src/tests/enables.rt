//! Enable bits of devices: where they lie, what writes leave of them, and splits against all written bytes. Worked by hand from the data
//! sheets' places of the bits, with devices for each kind of place.

use super::three_valued::{Bits, byte};
use avr_model::device::Device;
use avr_model::naming::device_named;
use bit_domain::TriByte;
use node_keys::split;
use row_tests::WorkedRow;
use std::alloc::Global;
use vector_table::{Masks, enable_of, held, write};

/// A device and a data address; the vector that each bit enables, from bit 0 on, or 0; and the bits that reads give.
pub struct EnableRow(&'static str, u16, [u8; 8], u8);

pub static PLACES: [(&str, &[EnableRow]); 1] = [(
    "place",
    &[
        EnableRow("atmega328p", 0x60, [0, 0, 0, 0, 0, 0, 7, 0], 0x40),
        // PCINT by PCIE0 or PCIE1
        EnableRow("attiny861", 0x5B, [0, 0, 0, 0, 3, 3, 2, 14], 0xC0),
        EnableRow("attiny861", 0x59, [17, 7, 6, 16, 15, 5, 4, 18], 0xFF),
        EnableRow("attiny85", 0x5B, [0, 0, 0, 0, 0, 3, 2, 0], 0x60),
        // PCIE0 and PCIE1 at the bits of either header
        EnableRow("atmega165p", 0x3D, [2, 0, 0, 0, 3, 4, 3, 4], 0x01),
        // INT4, INT5 and INT7 are reserved
        EnableRow("atmega32u4", 0x3D, [2, 3, 4, 5, 0, 0, 8, 0], 0x4F),
        EnableRow("atmega32u4", 0x60, [0, 0, 0, 0, 0, 0, 13, 0], 0x40),
        // USB_GEN at two addresses, and USB_COM: what was ever enabled stays so
        EnableRow("atmega32u4", 0xE2, [11, 11, 11, 11, 11, 11, 11, 11], 0),
        EnableRow("atmega32u4", 0xD8, [11, 0, 0, 0, 0, 0, 0, 0], 0),
        EnableRow("atmega32u4", 0xF0, [12, 12, 12, 12, 12, 12, 12, 12], 0),
        // WDT by WDIE and by WDEWIE
        EnableRow("at90usb162", 0x60, [0, 0, 0, 0, 0, 0, 14, 0], 0),
        EnableRow("at90usb162", 0x62, [0, 0, 14, 0, 0, 0, 0, 0], 0),
        EnableRow("attiny1634", 0x5C, [0, 0, 0, 3, 4, 5, 2, 0], 0x78),
        EnableRow("attiny1634", 0x7F, [0, 0, 26, 0, 26, 26, 0, 0], 0),
        // USART3 of 57 vectors
        EnableRow("atmega1280", 0x131, [0, 0, 0, 0, 0, 56, 57, 55], 0xE0),
        EnableRow("atmega1280", 0x200, [0, 0, 0, 0, 0, 0, 0, 0], 0),
    ],
)];

fn vector(device: Device, address: u16, bit: u8) -> u8 {
    enable_of(device, address, bit).unwrap_or(0)
}

impl WorkedRow for EnableRow {
    fn holds(&self, _alloc: Global) -> bool {
        let address = self.1;
        match device_named(self.0.as_bytes()) {
            Some(device) => {
                let vectors = [
                    vector(device, address, 0),
                    vector(device, address, 1),
                    vector(device, address, 2),
                    vector(device, address, 3),
                    vector(device, address, 4),
                    vector(device, address, 5),
                    vector(device, address, 6),
                    vector(device, address, 7),
                ];
                vectors == self.2 && held(device, address) == self.3
            }
            None => false,
        }
    }
}

/// A device, bits before, address, byte; bits after, a vector, and whether it is enabled then.
pub struct Written(&'static str, u128, u16, u8, u128, u8, bool);

pub static WRITES: [(&str, &[Written]); 1] = [(
    "write",
    &[
        // either of two bits enables
        Written("attiny861", 0, 0x5B, 0x10, 0x2, 3, true),
        Written("attiny861", 0, 0x5B, 0x20, 0x2, 3, true),
        Written("attiny861", 0x1001, 0x5B, 0x30, 0x2, 3, true),
        Written("attiny861", 0x3, 0x5B, 0xCF, 0x1001, 3, false),
        Written("attiny861", 0x3, 0x5B, 0xDF, 0x1003, 3, true),
        Written("attiny1634", 0, 0x7F, 0x20, 0x1000000, 26, true),
        Written("attiny1634", 0x1000000, 0x7F, 0xCB, 0, 26, false),
        Written("atmega165p", 0, 0x3D, 0x50, 0x2, 4, false),
        // once enabled, always enabled
        Written("atmega32u4", 0, 0xF0, 0x00, 0, 12, false),
        Written("atmega32u4", 0, 0xF0, 0x04, 0x400, 12, true),
        Written("atmega32u4", 0x400, 0xF0, 0x00, 0x400, 12, true),
        Written("atmega32u4", 0, 0xD8, 0xFE, 0, 11, false),
        Written("atmega32u4", 0, 0xD8, 0x01, 0x200, 11, true),
        Written("atmega32u4", 0x200, 0xE2, 0x00, 0x200, 11, true),
        Written("at90usb162", 0, 0x60, 0xBF, 0, 14, false),
        Written("at90usb162", 0, 0x60, 0x40, 0x1000, 14, true),
        Written("at90usb162", 0, 0x62, 0xFB, 0, 14, false),
        Written("at90usb162", 0, 0x62, 0x04, 0x1000, 14, true),
        Written("at90usb162", 0x1000, 0x60, 0x00, 0x1000, 14, true),
        Written("at90usb162", 0x1000, 0x62, 0x00, 0x1000, 14, true),
        // one bit is cleared again
        Written("atmega32u4", 0x800, 0x60, 0x00, 0, 13, false),
        // an open vector is enabled without a bit; no vector is 1 or behind the last
        Written("attiny1634", 0, 0x5C, 0x00, 0, 28, true),
        Written("attiny1634", 0, 0x5C, 0xFF, 0xF, 27, false),
        Written("attiny1634", 0x7FFFFFF, 0x200, 0x00, 0x7FFFFFF, 29, false),
        Written("attiny1634", 0x7FFFFFF, 0x200, 0x00, 0x7FFFFFF, 1, false),
        Written("attiny1634", 0x7FFFFFF, 0x200, 0x00, 0x7FFFFFF, 0, false),
        // reserved vectors have no place, and are never enabled
        Written("atmega32u4", 0, 0x3D, 0xFF, 0x4F, 6, false),
        Written(
            "atmega32u4",
            0x3FFFFFFFFFF,
            0x3D,
            0xFF,
            0x3FFFFFFFFFF,
            6,
            false,
        ),
        Written(
            "atmega32u4",
            0x3FFFFFFFFFF,
            0x3D,
            0x00,
            0x3FFFFFFFFB0,
            14,
            false,
        ),
        Written(
            "atmega32u4",
            0x3FFFFFFFFFF,
            0x3D,
            0x08,
            0x3FFFFFFFFB8,
            5,
            true,
        ),
        Written("atmega1280", 0, 0x131, 0x40, 0x80000000000000, 57, true),
    ],
)];

impl WorkedRow for Written {
    fn holds(&self, _alloc: Global) -> bool {
        match device_named(self.0.as_bytes()) {
            Some(device) => {
                let after = write(device, Masks::from_bits(self.1), self.2, self.3);
                after.bits() == self.4 && after.has(device, self.5) == self.6
            }
            None => false,
        }
    }
}

/// A device, a data address of enable bits, and the number of splits of its bits; one address has none. Source: the data sheets; of the
/// ATmega328P the registers EIMSK, EECR, SPCR, ACSR, SPMCSR, WDTCSR, PCICR, TIMSK0, TIMSK1, TIMSK2, ADCSRA, TWCR and UCSR0B.
pub struct Address(&'static str, u16, usize);

pub static ADDRESSES: [(&str, &[Address]); 1] = [(
    "address",
    &[
        Address("atmega328p", 0x3D, 4),
        Address("atmega328p", 0x3F, 2),
        Address("atmega328p", 0x4C, 2),
        Address("atmega328p", 0x50, 2),
        Address("atmega328p", 0x57, 2),
        Address("atmega328p", 0x60, 2),
        Address("atmega328p", 0x68, 8),
        Address("atmega328p", 0x6E, 8),
        Address("atmega328p", 0x6F, 16),
        Address("atmega328p", 0x70, 8),
        Address("atmega328p", 0x7A, 2),
        Address("atmega328p", 0xBC, 2),
        Address("atmega328p", 0xC1, 8),
        Address("atmega328p", 0x100, 1),
        Address("attiny861", 0x5B, 8),
        Address("atmega165p", 0x3D, 8),
        Address("atmega32u4", 0x3D, 32),
        Address("atmega32u4", 0xE2, 2),
        Address("atmega32u4", 0xD8, 2),
        Address("atmega32u4", 0xF0, 2),
        Address("at90usb162", 0x60, 2),
        Address("at90usb162", 0x62, 2),
        Address("attiny1634", 0x7F, 2),
        Address("atmega1280", 0x131, 8),
    ],
)];

static VALUES: [Bits; 7] = [
    (0x00, 0x00),
    (0xFF, 0xA5),
    (0x0F, 0x05),
    (0xF0, 0xA0),
    (0x55, 0x11),
    (0xFE, 0xFE),
    (0x81, 0x80),
];

// Masks without a bit, with each and with some.
static MASKS: [u128; 3] = [0, 0x1FFFFFF, 0x0A5A5A5];

// Whether writing some member of the value gives these.
fn is_written(device: Device, masks: Masks, m: Masks, address: u16, value: TriByte) -> bool {
    for byte in 0..=255 {
        if value.has(byte) && write(device, m, address, byte) == masks {
            return true;
        }
    }
    false
}

// Whether writing each member of the value gives one of these.
fn have_writes(device: Device, all: &[Masks], m: Masks, address: u16, value: TriByte) -> bool {
    for byte in 0..=255 {
        if value.has(byte) && !all.contains(&write(device, m, address, byte)) {
            return false;
        }
    }
    true
}

// Whether these ascend, are what writing members of the value gives, and include each such result.
fn are_writes(device: Device, all: &[Masks], m: Masks, address: u16, value: TriByte) -> bool {
    for at in 0..all.len() {
        if at > 0 && all[at - 1].bits() >= all[at].bits() {
            return false;
        }
        if !is_written(device, all[at], m, address, value) {
            return false;
        }
    }
    have_writes(device, all, m, address, value)
}

// Whether the splits of a value are the results of writing its members, and this many if a number is given.
fn are_split(
    alloc: Global,
    device: Device,
    address: u16,
    m: Masks,
    value: TriByte,
    due: Option<usize>,
) -> bool {
    match split(alloc, device, m, address, &value) {
        Ok(all) => are_writes(device, &all, m, address, value)
            && due.unwrap_or(all.len()) == all.len(),
        Err(_) => false,
    }
}

impl WorkedRow for Address {
    // Each value is split so, and the unknown byte into this many.
    fn holds(&self, alloc: Global) -> bool {
        let address = self.1;
        match device_named(self.0.as_bytes()) {
            Some(device) => {
                for at in 0..21 {
                    let m = Masks::from_bits(MASKS[at / 7]);
                    if !are_split(alloc, device, address, m, byte(VALUES[at % 7]), None) {
                        return false;
                    }
                }
                are_split(
                    alloc,
                    device,
                    address,
                    Masks::none(),
                    TriByte::any(),
                    Some(self.2),
                )
            }
            None => false,
        }
    }
}

/// A device, bits before, address, known bits and value; bits after, ascending.
pub struct Split(&'static str, u128, u16, Bits, &'static [u128]);

pub static SPLITS: [(&str, &[Split]); 1] = [(
    "split",
    &[
        // INT0 and INT1 in EIMSK; PCINT0's bit stays
        Split("atmega328p", 0x4, 0x3D, (0x00, 0x00), &[0x4, 0x5, 0x6, 0x7]),
        // RXCIE0 is set, UDRIE0 and TXCIE0 may be
        Split(
            "atmega328p",
            0x0,
            0xC1,
            (0x80, 0x80),
            &[0x20000, 0x60000, 0xA0000, 0xE0000],
        ),
        // TOIE2 and OCIE2A are bits 0 and 1 of TIMSK2, but vectors 10 and 8; OCIE2B is cleared
        Split(
            "atmega328p",
            0x1C0,
            0x70,
            (0x04, 0x00),
            &[0x000, 0x040, 0x100, 0x140],
        ),
        // PCIE1 is set, the others may be
        Split(
            "atmega328p",
            0x0,
            0x68,
            (0x02, 0x02),
            &[0x8, 0xC, 0x18, 0x1C],
        ),
        // either of two bits enables PCINT; INT0 and INT1 beside it
        Split("attiny861", 0x0, 0x5B, (0xFF, 0x10), &[0x2]),
        Split("attiny861", 0x0, 0x5B, (0xEF, 0x20), &[0x2]),
        Split("attiny861", 0x2, 0x5B, (0xEF, 0x00), &[0x0, 0x2]),
        Split("attiny861", 0x1003, 0x5B, (0xCF, 0x40), &[0x1, 0x3]),
        Split(
            "attiny861",
            0x0,
            0x5B,
            (0x00, 0x00),
            &[0x0, 0x1, 0x2, 0x3, 0x1000, 0x1001, 0x1002, 0x1003],
        ),
        Split("attiny1634", 0x0, 0x7F, (0x00, 0x00), &[0x0, 0x1000000]),
        Split("attiny1634", 0x1000000, 0x7F, (0x34, 0x00), &[0x0]),
        // what was ever enabled stays so
        Split("atmega32u4", 0x0, 0xF0, (0x00, 0x00), &[0x0, 0x400]),
        Split("atmega32u4", 0x400, 0xF0, (0x00, 0x00), &[0x400]),
        Split("atmega32u4", 0x400, 0xF0, (0xFF, 0x00), &[0x400]),
        Split("atmega32u4", 0x0, 0xF0, (0x01, 0x01), &[0x400]),
        Split("at90usb162", 0x0, 0x62, (0x00, 0x00), &[0x0, 0x1000]),
        Split("at90usb162", 0x0, 0x62, (0x04, 0x00), &[0x0]),
        Split("at90usb162", 0x1000, 0x62, (0x00, 0x00), &[0x1000]),
        // the bits of INT4, INT5 and INT7 enable nothing; the number's own bits for these vectors stay
        Split(
            "atmega32u4",
            0x3FFFFFFFFFF,
            0x3D,
            (0x4F, 0x00),
            &[0x3FFFFFFFFB0],
        ),
    ],
)];

// Whether these are the bits.
fn are_bits(all: &[Masks], bits: &[u128]) -> bool {
    for at in 0..all.len().min(bits.len()) {
        if all[at].bits() != bits[at] {
            return false;
        }
    }
    all.len() == bits.len()
}

impl WorkedRow for Split {
    fn holds(&self, alloc: Global) -> bool {
        match device_named(self.0.as_bytes()) {
            Some(device) => {
                match split(
                    alloc,
                    device,
                    Masks::from_bits(self.1),
                    self.2,
                    &byte(self.3),
                ) {
                    Ok(all) => are_bits(&all, self.4),
                    Err(_) => false,
                }
            }
            None => false,
        }
    }
}
