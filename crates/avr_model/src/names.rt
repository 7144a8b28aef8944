//! The names of devices: their type, and the macro that `device_table` writes them with.

/// The greatest number of bytes of a name.
pub const LONGEST: usize = 14;

/// A name of a device.
#[derive(Clone, Copy)]
pub struct Name {
    /// Its bytes, filled up with zeros.
    pub text: [u8; LONGEST],
    /// The device's index in the table.
    pub index: u8,
}

// The names of each device behind its index in the table.
macro_rules! names {
    ($($index:literal: $($text:literal)+;)*) => {
        [$($(Name {
            text: *$text,
            index: $index,
        }),+),*]
    };
}

pub(crate) use names;

// Names without indices.
macro_rules! texts {
    ($($text:literal)+) => {
        [$(*$text),+]
    };
}

pub(crate) use texts;
