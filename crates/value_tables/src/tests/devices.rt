//! What names of devices mean.

use avr_model::device::{Device, Special};
use avr_model::naming::{class_of, device_named, device_of_class};
use row_tests::WorkedRow;
use std::alloc::Global;

/// A name, the name in texts and the device's numbers; names that aren't known have none of these.
pub struct Named(&'static str, &'static str, Numbers);

// Words, last I/O address, bytes of SRAM, last vector, watchdog, limit, depth; whether `jmp`, multiplication, `elpm` and `break` are
// instructions, and the word at which vector 2 is entered; the bytes of a pushed word, whether there is SPH, and whether `movw`, and `lpm`
// into a register that it names, are instructions; whether `elpm` into a register that it names, and `eijmp`, are, and the greatest numbers
// of RAMPZ and EIND.
type Numbers = [u32; 20];

const NONE: Numbers = [0; 20];

/// Names of devices. Source: the data sheets.
pub static NAMES: [(&str, &[Named]); 1] = [(
    "name",
    &[
        Named(
            "atmega48pa",
            "atmega48pa",
            [
                2048, 0xFF, 512, 26, 7, 16384, 2048, 0, 1, 0, 1, 1, 2, 1, 1, 1, 0, 0, 0, 0,
            ],
        ),
        Named(
            "atmega48",
            "atmega48pa",
            [
                2048, 0xFF, 512, 26, 7, 16384, 2048, 0, 1, 0, 1, 1, 2, 1, 1, 1, 0, 0, 0, 0,
            ],
        ),
        Named(
            "atmega48p",
            "atmega48pa",
            [
                2048, 0xFF, 512, 26, 7, 16384, 2048, 0, 1, 0, 1, 1, 2, 1, 1, 1, 0, 0, 0, 0,
            ],
        ),
        Named(
            "atmega328",
            "atmega328p",
            [
                16384, 0xFF, 2048, 26, 7, 16384, 2048, 1, 1, 0, 1, 2, 2, 1, 1, 1, 0, 0, 0, 0,
            ],
        ),
        Named(
            "atmega8",
            "atmega8",
            [
                4096, 0x5F, 1024, 19, 0, 16384, 2048, 0, 1, 0, 0, 1, 2, 1, 1, 1, 0, 0, 0, 0,
            ],
        ),
        Named(
            "atmega163",
            "atmega163",
            [
                8192, 0x5F, 1024, 18, 0, 16384, 2048, 1, 1, 0, 0, 2, 2, 1, 1, 1, 0, 0, 0, 0,
            ],
        ),
        Named(
            "attiny85",
            "attiny85",
            [
                4096, 0x5F, 512, 15, 13, 16384, 2048, 0, 0, 0, 1, 1, 2, 1, 1, 1, 0, 0, 0, 0,
            ],
        ),
        Named(
            "attiny861a",
            "attiny861",
            [
                4096, 0x5F, 512, 19, 13, 16384, 2048, 0, 0, 0, 1, 1, 2, 1, 1, 1, 0, 0, 0, 0,
            ],
        ),
        Named(
            "attiny1634",
            "attiny1634",
            [
                8192, 0xFF, 1024, 28, 6, 16384, 2048, 1, 0, 0, 1, 2, 2, 1, 1, 1, 0, 0, 0, 0,
            ],
        ),
        Named(
            "atmega16u2",
            "at90usb162",
            [
                8192, 0xFF, 512, 29, 0, 16384, 2048, 1, 0, 0, 1, 2, 2, 1, 1, 1, 0, 0, 0, 0,
            ],
        ),
        Named(
            "atmega32u4",
            "atmega32u4",
            [
                16384, 0xFF, 2560, 43, 13, 16384, 2560, 1, 1, 0, 1, 2, 2, 1, 1, 1, 0, 0, 0, 0,
            ],
        ),
        Named(
            "atmega64a",
            "atmega64",
            [
                32768, 0xFF, 4096, 35, 0, 32768, 4096, 1, 1, 0, 1, 2, 2, 1, 1, 1, 0, 0, 0, 0,
            ],
        ),
        Named(
            "atmega128",
            "atmega128",
            [
                65536, 0xFF, 4096, 35, 0, 65536, 4096, 1, 1, 1, 1, 2, 2, 1, 1, 1, 1, 0, 1, 0,
            ],
        ),
        Named(
            "atmega1280",
            "atmega1280",
            [
                65536, 0x1FF, 8192, 57, 13, 65536, 8192, 1, 1, 1, 1, 2, 2, 1, 1, 1, 1, 0, 1, 0,
            ],
        ),
        Named(
            "atmega1284",
            "atmega1284p",
            [
                65536, 0xFF, 16384, 35, 9, 65536, 16384, 1, 1, 1, 1, 2, 2, 1, 1, 1, 1, 0, 1, 0,
            ],
        ),
        // as long as a name of the table can be
        Named(
            "atmega3290pa",
            "atmega3290p",
            [
                16384, 0xFF, 2048, 25, 0, 16384, 2048, 1, 1, 0, 1, 2, 2, 1, 1, 1, 0, 0, 0, 0,
            ],
        ),
        // the last of the table
        Named(
            "attiny88",
            "attiny88",
            [
                4096, 0xFF, 512, 20, 8, 16384, 2048, 0, 0, 0, 1, 1, 2, 1, 1, 1, 0, 0, 0, 0,
            ],
        ),
        Named(
            "atmega328pb",
            "atmega328pb",
            [
                16384, 0xFF, 2048, 45, 7, 16384, 2048, 1, 1, 0, 1, 2, 2, 1, 1, 1, 0, 0, 0, 0,
            ],
        ),
        Named(
            "attiny13a",
            "attiny13",
            [
                512, 0x5F, 64, 10, 9, 16384, 2048, 0, 0, 0, 1, 1, 2, 0, 1, 1, 0, 0, 0, 0,
            ],
        ),
        Named(
            "at90s2343",
            "attiny22",
            [
                1024, 0x5F, 128, 3, 0, 16384, 2048, 0, 0, 0, 0, 1, 2, 0, 0, 0, 0, 0, 0, 0,
            ],
        ),
        Named(
            "at90s8515",
            "at90s8515",
            [
                4096, 0x5F, 512, 13, 0, 16384, 2048, 0, 0, 0, 0, 1, 2, 1, 0, 0, 0, 0, 0, 0,
            ],
        ),
        // with RAMPZ but without `elpm` into a register that it names
        Named(
            "atmega103",
            "atmega103",
            [
                65536, 0x5F, 4000, 24, 0, 65536, 4000, 1, 0, 1, 0, 2, 2, 1, 0, 0, 0, 0, 1, 0,
            ],
        ),
        // with EIND
        Named(
            "atmega2560",
            "atmega2560",
            [
                131072, 0x1FF, 8192, 57, 13, 131072, 8192, 1, 1, 1, 1, 2, 3, 1, 1, 1, 1, 1, 3, 1,
            ],
        ),
        Named(
            "atmega2564rfr2",
            "atmega256rfr2",
            [
                131072, 0x1FF, 32768, 77, 13, 131072, 32768, 1, 1, 1, 1, 2, 3, 1, 1, 1, 1, 1, 3, 1,
            ],
        ),
        Named("", "", NONE),
        Named("attiny11", "", NONE),
        Named("atmega", "", NONE),
        Named("atmega328p ", "", NONE),
        Named(" atmega328p", "", NONE),
        Named("atmega328p\0", "", NONE),
        Named("atmega328pbx", "", NONE),
        Named("ATmega328P", "", NONE),
        Named("attiny10", "", NONE),
        Named("attiny1614", "", NONE),
        Named("atmega3290pa\0", "", NONE),
    ],
)];

fn numbers(device: Device) -> Numbers {
    [
        device.words(),
        u32::from(device.io_end()),
        u32::from(device.size()),
        u32::from(device.last_vector()),
        u32::from(device.watchdog()),
        device.limit(),
        u32::from(device.depth()),
        u32::from(device.has_jmp()),
        u32::from(device.has_mul()),
        u32::from(device.has_elpm()),
        u32::from(device.has_break()),
        device.vector_word(2),
        u32::from(device.back()),
        u32::from(device.has_sph()),
        u32::from(device.has_movw()),
        u32::from(device.has_lpmx()),
        u32::from(device.has_elpmx()),
        u32::from(device.has_eijmp()),
        u32::from(device.rampz_most()),
        u32::from(device.eind_most()),
    ]
}

impl WorkedRow for Named {
    // The device has this class, whose name in texts means it again; another name means none there.
    fn holds(&self, _alloc: Global) -> bool {
        let own = device_of_class(self.0.as_bytes());
        match device_named(self.0.as_bytes()) {
            Some(device) => {
                class_of(device) == self.1.as_bytes()
                    && numbers(device) == self.2
                    && device_of_class(class_of(device)) == Some(device)
                    && own.is_some() == (self.0 == self.1)
            }
            None => self.1.is_empty() && own.is_none(),
        }
    }
}

/// A device; the data address of I/O address 0, the last guarded address, the words that flash has, the data address at which it is mapped,
/// and how many bytes of it; whether it is an AVRxt.
pub struct Placed(Device, [u32; 5], bool);

/// Source: the data sheets' address maps.
pub static PLACED: [(&str, &[Placed]); 1] = [(
    "placed",
    &[
        Placed(Device::M48, [0x20, 0xC1, 2048, 0, 0], false),
        Placed(Device::M328, [0x20, 0xC1, 16384, 0, 0], false),
        Placed(Device::T1614, [0, 0x1003, 8192, 0x8000, 16384], true),
    ],
)];

impl WorkedRow for Placed {
    fn holds(&self, _alloc: Global) -> bool {
        let device = self.0;
        let numbers = [
            u32::from(device.io_base()),
            u32::from(device.guarded_end()),
            device.flash_words(),
            u32::from(device.map_at()),
            device.map_bytes(),
        ];
        numbers == self.1 && device.is_xt() == self.2
    }
}

/// What a data address is of the core.
#[derive(Clone, Copy, PartialEq, Eq)]
enum Core {
    Register(u16),
    Spl,
    Sph,
    Sreg,
    Nothing,
}

/// A device, a data address and what it is there.
pub struct Addressed(Device, u16, Core);

pub static ADDRESSED: [(&str, &[Addressed]); 1] = [(
    "addressed",
    &[
        Addressed(Device::M328, 0x00, Core::Register(0)),
        Addressed(Device::M328, 0x1F, Core::Register(31)),
        Addressed(Device::M328, 0x20, Core::Nothing),
        Addressed(Device::M328, 0x3D, Core::Nothing),
        // no RAMPZ or EIND
        Addressed(Device::M328, 0x5B, Core::Nothing),
        Addressed(Device::M328, 0x5C, Core::Nothing),
        Addressed(Device::M328, 0x5D, Core::Spl),
        Addressed(Device::M328, 0x5E, Core::Sph),
        Addressed(Device::M328, 0x5F, Core::Sreg),
        Addressed(Device::T1614, 0x00, Core::Nothing),
        Addressed(Device::T1614, 0x1F, Core::Nothing),
        Addressed(Device::T1614, 0x3B, Core::Nothing),
        Addressed(Device::T1614, 0x3C, Core::Nothing),
        Addressed(Device::T1614, 0x3D, Core::Spl),
        Addressed(Device::T1614, 0x3E, Core::Sph),
        Addressed(Device::T1614, 0x3F, Core::Sreg),
        Addressed(Device::T1614, 0x5D, Core::Nothing),
        Addressed(Device::T1614, 0x5E, Core::Nothing),
        Addressed(Device::T1614, 0x5F, Core::Nothing),
    ],
)];

fn core_at(device: Device, address: u16) -> Core {
    match (device.register_at(address), device.special(address)) {
        (Some(register), None) => Core::Register(register),
        (None, Some(Special::Spl)) => Core::Spl,
        (None, Some(Special::Sph)) => Core::Sph,
        (None, Some(Special::Sreg)) => Core::Sreg,
        _ => Core::Nothing,
    }
}

impl WorkedRow for Addressed {
    fn holds(&self, _alloc: Global) -> bool {
        core_at(self.0, self.1) == self.2
    }
}

// The ATtiny1614's numbers, as those of the names.
const HIDDEN: Numbers = [
    8192, 0x37FF, 2048, 31, 0, 16384, 2048, 1, 1, 0, 1, 2, 2, 1, 1, 1, 0, 0, 0, 0,
];

/// The ATtiny1614 has its numbers, and in texts the name of every index without one, which does not mean it.
pub fn is_hidden() -> bool {
    let name = class_of(Device::T1614);
    numbers(Device::T1614) == HIDDEN
        && name == b"atmega328p".as_slice()
        && device_named(name) == Some(Device::M328)
        && device_of_class(name) == Some(Device::M328)
        && device_of_class(b"attiny1614").is_none()
}
