//! The types of the table of devices in `device_table`, and the macros that it is written with. Source: the data sheets.

/// How a written byte changes a vector's enable bit.
#[derive(Clone, Copy)]
pub enum Enable {
    /// The enable bit is the one bit of the mask: a write copies it, and reads give it. The vector has no other enable place.
    Bit,
    /// Each bit of the mask enables the vector: it is enabled if one of them is written 1.
    Any,
    /// As `Any`, but the vector stays enabled, whatever is written: it has several enable places, or one register for several of its kind.
    Sticky,
}

/// A place where writes enable a vector.
#[derive(Clone, Copy)]
pub struct EnablePlace {
    /// The vector's number, 2 or more.
    pub vector: u8,
    /// A data address of I/O: not SPL, SPH or SREG.
    pub address: u16,
    /// The bits of the address that enable the vector. No bit of an address enables two vectors.
    pub mask: u8,
    /// How a written byte changes the enable bit.
    pub enable: Enable,
}

/// Bits of a control register that move vectors: IVSEL, which moves them to the boot section, and on AVRxt CVT, by which all share one.
#[derive(Clone, Copy)]
pub struct MovingPlace {
    /// A data address of I/O that `sbi` and `cbi` do not reach, and not SPL, SPH or SREG.
    pub address: u16,
    /// The bits: none is an enable bit.
    pub mask: u8,
}

/// The kind of a device's core.
#[derive(Clone, Copy)]
pub enum DeviceKind {
    /// The registers have the first data addresses, and an interrupt clears I.
    Classic,
    /// AVRxt: the registers have no data addresses, and interrupts have levels.
    Xt,
}

/// The numbers of a device.
#[derive(Clone, Copy)]
pub struct Row {
    /// The kind of its core.
    pub kind: DeviceKind,
    /// The number of bits of a word address: the program counter counts modulo 2 to this power. 9 to 17.
    pub width: u8,
    /// The number of words of flash, at most 2 to that power.
    pub flash_words: u32,
    /// The data address at which flash is mapped, behind SRAM; 0 if it is not.
    pub map_at: u16,
    /// How many bytes of flash are mapped there; 0 if it is not.
    pub map_bytes: u32,
    /// The number of bytes in which a word address is pushed: 2 or 3, so that they hold each word address.
    pub back: u8,
    /// The data address of I/O address 0, and the number of registers that have data addresses: those below it. 0x20, or 0.
    pub io_base: u16,
    /// The last address of I/O, at most 0x77FF; SRAM begins behind it.
    pub io_end: u16,
    /// No data address behind this one is a register's, the stack pointer's, the status register's, an enable place or a place that moves vectors. At
    /// most 0x1004.
    pub guarded_end: u16,
    /// The number of bytes of SRAM, at most 32,768; it ends below 0x8200.
    pub size: u16,
    /// Whether the stack pointer has a high byte, SPH. Without one, SRAM ends below 0x100, and each list is read with `masks`.
    pub has_sph: bool,
    /// The number of words of a vector, 1 or 2.
    pub step: u16,
    /// The last vector, at most 77. The first is reset; the others are interrupts.
    pub last: u8,
    /// The vector whose enable bit its own entry may clear: the watchdog's; 0 if there is none.
    pub watchdog: u8,
    /// The vectors that no known bit enables, and that count as always enabled: bit v - 2 is that of vector v. Other vectors
    /// without an enable place are reserved, and never come.
    pub open: u128,
    /// Whether `jmp` and `call` are instructions.
    pub has_jmp: bool,
    /// Whether `mul`, `muls`, `mulsu`, `fmul`, `fmuls` and `fmulsu` are.
    pub has_mul: bool,
    /// Whether `movw` is.
    pub has_movw: bool,
    /// Whether `lpm` into a register that it names is; each device has `lpm` into r0.
    pub has_lpmx: bool,
    /// Whether `elpm` into r0 is, and the device has the register RAMPZ. Then flash has 2 to the 16 words at least.
    pub has_elpm: bool,
    /// Whether `elpm` into a register that it names is. Then `elpm` into r0 is as well.
    pub has_elpmx: bool,
    /// Whether `eijmp` and `eicall` are, and the device has the register EIND. Then flash has 2 to the 17 words.
    pub has_eijmp: bool,
    /// Whether `break` is.
    pub has_break: bool,
    /// Whether each assumption list is read as if it had the line `masks`.
    pub reads_masks: bool,
    /// A place of bits that move vectors, if there is one.
    pub moving: Option<MovingPlace>,
    /// Another one. They are two fields, since a table of rows that hold arrays would be made anew at each use.
    pub moving_too: Option<MovingPlace>,
    /// The number of the list of its enable places.
    pub family: u8,
}

// Whether a column names a group of instructions, a register or a line of assumption lists; `-` says that the device has none.
macro_rules! has {
    (-) => {
        false
    };
    ($name:ident) => {
        true
    };
}

pub(crate) use has;

// A place that moves vectors: its address and its mask, or `-`.
macro_rules! moving {
    (-) => {
        None
    };
    ([$address:literal $mask:literal]) => {
        Some(MovingPlace {
            address: $address,
            mask: $mask,
        })
    };
}

pub(crate) use moving;

// The column of the kind of the core.
macro_rules! kind {
    (classic) => {
        DeviceKind::Classic
    };
    (xt) => {
        DeviceKind::Xt
    };
}

pub(crate) use kind;

// A row: the device's name, and the fields of `Row` in their order.
macro_rules! row {
    (
        $name:ident $kind:ident $width:literal $flash_words:literal $map_at:literal $map_bytes:literal $back:literal $io_base:literal $io_end:literal $guarded_end:literal $size:literal $sph:tt $step:literal $last:literal $watchdog:literal
        $open:literal $jmp:tt $mul:tt $movw:tt $lpmx:tt $elpm:tt $elpmx:tt $eijmp:tt $break:tt $masks:tt $moving:tt $moving_too:tt $family:literal
    ) => {
        Row {
            kind: kind!($kind),
            width: $width,
            flash_words: $flash_words,
            map_at: $map_at,
            map_bytes: $map_bytes,
            back: $back,
            io_base: $io_base,
            io_end: $io_end,
            guarded_end: $guarded_end,
            size: $size,
            has_sph: has!($sph),
            step: $step,
            last: $last,
            watchdog: $watchdog,
            open: $open,
            has_jmp: has!($jmp),
            has_mul: has!($mul),
            has_movw: has!($movw),
            has_lpmx: has!($lpmx),
            has_elpm: has!($elpm),
            has_elpmx: has!($elpmx),
            has_eijmp: has!($eijmp),
            has_break: has!($break),
            reads_masks: has!($masks),
            moving: moving!($moving),
            moving_too: moving!($moving_too),
            family: $family,
        }
    };
}

pub(crate) use row;

// A list of rows.
macro_rules! rows {
    ($([$($column:tt)+])*) => {
        [$(row!($($column)+)),*]
    };
}

pub(crate) use rows;

// An enable place: the vector, the address and the mask, behind its kind where that is not `Bit`.
macro_rules! enable_place {
    ($vector:literal $address:literal $mask:literal) => {
        enable_place!(Bit $vector $address $mask)
    };
    ($enable:ident $vector:literal $address:literal $mask:literal) => {
        EnablePlace {
            vector: $vector,
            address: $address,
            mask: $mask,
            enable: Enable::$enable,
        }
    };
}

pub(crate) use enable_place;

// A list of enable places.
macro_rules! enable_places {
    ($([$($part:tt)+])*) => {
        [$(enable_place!($($part)+)),*]
    };
}

pub(crate) use enable_places;
