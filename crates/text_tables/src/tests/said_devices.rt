//! Certificates whose text says its device: read and written back, and refused.

use super::certificates::{Piece, append_all, is_written};
use avr_model::device::Device;
use avr_model::naming::device_named;
use cert_format::{CertFault, Version, read};
use row_tests::WorkedRow;
use std::alloc::Global;

// With a vector of one word and five digits of enable bits.
const WITHOUT_PAIRS: &[Piece] = &[
    (b"stackcert 4\ndevice atmega8\n", b"", 0, b""),
    (b"bound 2048\nassume 2\n", b"", 0, b""),
    (b"masks\nstore 0006 0059\n", b"", 0, b""),
    (b"instances 2\n", b"", 0, b""),
    (b"inst root 0000 00000 0 rank 1 need 4\n", b"", 0, b""),
    (b"inst v19 0012 3FFFF 0 rank 0 need 2\n", b"", 0, b""),
    (b"nodes 2\n", b"", 0, b""),
    (
        b"node 0 0000 00000 0 0 c0 -",
        b" -000000FF",
        32,
        b" -7F00 -\n",
    ),
    (b"node 0 3FFF 3FFFF 0 0 c0 00 from 0\n", b"", 0, b""),
    (b"witness open\nend\n", b"", 0, b""),
];

// With vectors of two words, fourteen digits, a word above 3FFF, a bound above 2048 and RAMPZ.
const WITH_PAIRS: &[Piece] = &[
    (b"stackcert 5\ndevice atmega1280\n", b"", 0, b""),
    (b"bound 8192\nassume 2\n", b"", 0, b""),
    (b"pairs\nnever FFFF\n", b"", 0, b""),
    (b"instances 2\n", b"", 0, b""),
    (
        b"inst root 0000 00000000000000 0 rank 1 need 4\n",
        b"",
        0,
        b"",
    ),
    (
        b"inst v57 0070 FFFFFFFFFFFFFF 0 rank 0 need 2\n",
        b"",
        0,
        b"",
    ),
    (b"nodes 2\n", b"", 0, b""),
    (
        b"node 0 0000 00000000000000 0 0 c0 -",
        b" -000000FF",
        32,
        b" -FF010101 -7F00 - - - - -\n",
    ),
    (
        b"node 0 FFFF FFFFFFFFFFFFFF 0 0 c0 00 from 0\n",
        b"",
        0,
        b"",
    ),
    (b"witness open\nend\n", b"", 0, b""),
];

/// A device, the pieces of a certificate for it, and whether its list has the line `pairs`.
pub struct Said(&'static str, &'static [Piece], bool);

pub static SAID: [(&str, &[Said]); 1] = [(
    "says its device",
    &[
        Said("atmega8a", WITHOUT_PAIRS, false),
        Said("atmega1280", WITH_PAIRS, true),
    ],
)];

fn is_read(alloc: Global, device: Device, text: &[u8], pairs: bool) -> bool {
    match read(alloc, device, text) {
        Ok(certificate) => {
            let third = certificate.version() == Version::Three;
            third == pairs && is_written(alloc, &certificate, text)
        }
        Err(_) => false,
    }
}

impl WorkedRow for Said {
    fn holds(&self, alloc: Global) -> bool {
        let Some(device) = device_named(self.0.as_bytes()) else {
            return false;
        };
        let mut text = Vec::new(alloc);
        let appended = append_all(&mut text, self.1).is_ok();
        appended && is_read(alloc, device, text.as_slice(), self.2)
    }
}

/// Why a text is refused.
pub enum Due {
    Malformed(usize),
    Order(usize),
    Other(&'static str),
}

/// A device, a text, and why it is refused for the device.
pub struct Unread(&'static str, &'static str, Due);

pub static UNREAD: [(&str, &[Unread]); 1] = [(
    "refused for its device",
    &[
        Unread(
            "attiny84",
            "stackcert 4\ndevice attiny85\nbound",
            Due::Other("attiny85"),
        ),
        Unread(
            "attiny84",
            "stackcert 4\ndevice atmega328p\n",
            Due::Other("atmega328p"),
        ),
        Unread("attiny84", "stackcert 4\nbound 0\n", Due::Malformed(12)),
        // a name of the device that isn't the one in texts, and a device that has none
        Unread(
            "attiny84",
            "stackcert 4\ndevice attiny84a\n",
            Due::Malformed(12),
        ),
        Unread(
            "attiny84",
            "stackcert 4\ndevice attiny15\n",
            Due::Malformed(12),
        ),
        Unread(
            "attiny84",
            "stackcert 4\ndevice attiny84 \n",
            Due::Malformed(12),
        ),
        Unread(
            "attiny84",
            "stackcert 4\ndevice attiny84",
            Due::Malformed(12),
        ),
        Unread("attiny84", "stackcert 3\nbound 0\n", Due::Malformed(0)),
        Unread("attiny84", "stackcert 2\nbound 0\n", Due::Malformed(0)),
        Unread("attiny84", "stackcert 1\nbound 0\n", Due::Malformed(0)),
        Unread("attiny84", "stackcert 5\nbound 0\n", Due::Malformed(0)),
        Unread("atmega328", "stackcert 4\n", Due::Malformed(0)),
        Unread("atmega328", "stackcert 5\n", Due::Malformed(0)),
        Unread(
            "atmega128",
            "stackcert 4\ndevice atmega128\n",
            Due::Malformed(0),
        ),
        Unread("atmega2560", "stackcert 6\n", Due::Malformed(0)),
        Unread(
            "atmega2560",
            "stackcert 5\ndevice atmega2561\n",
            Due::Other("atmega2561"),
        ),
        Unread(
            "atmega2560",
            "stackcert 5\ndevice attiny13\n",
            Due::Other("attiny13"),
        ),
        Unread(
            "attiny84",
            "stackcert 4\ndevice attiny84\nbound 2049\n",
            Due::Malformed(28),
        ),
        Unread(
            "atmega1284",
            "stackcert 5\ndevice atmega1284p\nbound 16385\n",
            Due::Malformed(31),
        ),
        // `pairs` behind another line
        Unread(
            "attiny84",
            "stackcert 4\ndevice attiny84\nbound 0\nassume 2\nmasks\npairs\n",
            Due::Order(51),
        ),
        // six digits where five say all, and a vector at a word of two
        Unread(
            "atmega8",
            "stackcert 4\ndevice atmega8\nbound 0\nassume 0\ninstances 1\ninst root 0000 000000 0 rank 0 need 0\n",
            Due::Malformed(56),
        ),
        Unread(
            "atmega8",
            "stackcert 4\ndevice atmega8\nbound 0\nassume 0\ninstances 1\ninst v3 0004 00000 0 rank 0 need 0\n",
            Due::Malformed(56),
        ),
    ],
)];

fn is_due(fault: &CertFault, due: &Due) -> bool {
    match due {
        Due::Malformed(at) => *fault == CertFault::Malformed(*at),
        Due::Order(at) => *fault == CertFault::Order(*at),
        Due::Other(name) => match device_named(name.as_bytes()) {
            Some(device) => *fault == CertFault::Other(device),
            None => false,
        },
    }
}

impl WorkedRow for Unread {
    fn holds(&self, alloc: Global) -> bool {
        let Some(device) = device_named(self.0.as_bytes()) else {
            return false;
        };
        match read(alloc, device, self.1.as_bytes()) {
            Ok(_) => false,
            Err(fault) => is_due(&fault, &self.2),
        }
    }
}
