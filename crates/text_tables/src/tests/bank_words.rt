//! Certificates whose states have the words of RAMPZ and EIND, and tags that only some devices have.

use super::certificates::{Piece, append_all, is_written};
use avr_model::device::Device;
use avr_model::naming::device_named;
use cert_format::{CertFault, read};
use row_tests::WorkedRow;
use std::alloc::Global;

// The name of a device, the beginning of a certificate for it up to the values of its one node, and the offset of that node's line.
struct Front(&'static str, &'static [u8], usize);

// With both registers, in the root.
const ROOT_2560: &Front = &Front(
    "atmega2560",
    b"stackcert 5\ndevice atmega2560\nbound 0\nassume 0\ninstances 1\ninst root 00000 00000000000000 0 rank 0 need 0\nnodes 1\nnode 0 00000 00000000000000 0 0 c0 -",
    114,
);

// With both, outside the root.
const CALL_2560: &Front = &Front(
    "atmega2560",
    b"stackcert 5\ndevice atmega2560\nbound 0\nassume 0\ninstances 1\ninst call 00010 00000000000000 0 rank 0 need 0\nnodes 1\nnode 0 00010 00000000000000 0 0 c0 -",
    114,
);

// With RAMPZ alone.
const CALL_1284: &Front = &Front(
    "atmega1284p",
    b"stackcert 5\ndevice atmega1284p\nbound 0\nassume 0\ninstances 1\ninst call 0010 000000000 0 rank 0 need 0\nnodes 1\nnode 0 0010 000000000 0 0 c0 -",
    109,
);

// Without SPH.
const CALL_2313: &Front = &Front(
    "attiny2313a",
    b"stackcert 4\ndevice attiny2313a\nbound 0\nassume 0\ninstances 1\ninst call 0010 00000 0 rank 0 need 0\nnodes 1\nnode 0 0010 00000 0 0 c0 -",
    105,
);

// With neither.
const CALL_84: &Front = &Front(
    "attiny84",
    b"stackcert 4\ndevice attiny84\nbound 0\nassume 0\ninstances 1\ninst call 0010 0000 0 rank 0 need 0\nnodes 1\nnode 0 0010 0000 0 0 c0 -",
    101,
);

/// A certificate's beginning, the word of r0 to r31, the words behind these, and whether it is read. Else it is malformed at the node.
pub struct Banked(&'static Front, &'static [u8], &'static [u8], bool);

pub static BANKED: [(&str, &[Banked]); 1] = [(
    "words of RAMPZ and EIND",
    &[
        // both registers, with all that they can hold
        Banked(
            ROOT_2560,
            b" -000000FF",
            b" -FC000003 -FE000001 -7F00 -",
            true,
        ),
        // RAMPZ holds at most 3, and EIND 1
        Banked(
            ROOT_2560,
            b" -000000FF",
            b" -FF040404 -FF000000 -7F00 -",
            false,
        ),
        Banked(
            ROOT_2560,
            b" -000000FF",
            b" -F8000007 -FF000000 -7F00 -",
            false,
        ),
        // the bits decide, not the range
        Banked(
            ROOT_2560,
            b" -000000FF",
            b" -F8000003 -FF000000 -7F00 -",
            false,
        ),
        Banked(
            ROOT_2560,
            b" -000000FF",
            b" -FF000000 -FF020202 -7F00 -",
            false,
        ),
        Banked(
            ROOT_2560,
            b" -000000FF",
            b" -FF000000 -FC000003 -7F00 -",
            false,
        ),
        // both are there, and no third
        Banked(ROOT_2560, b" -000000FF", b" -FF000000 -7F00 -", false),
        Banked(
            ROOT_2560,
            b" -000000FF",
            b" -FF000000 -FF000000 -FF000000 -7F00 -",
            false,
        ),
        // their tags, in any value outside the root
        Banked(
            ROOT_2560,
            b" -000000FF",
            b" e20FF000000 -FF000000 -7F00 -",
            false,
        ),
        Banked(
            CALL_2560,
            b" e20000000FF",
            b" e21FC000003 e1FFE000001 f7F00 c1F80",
            true,
        ),
        Banked(
            CALL_2560,
            b" e21000000FF",
            b" h00FFFC000003 l02FE000001 f7F00 -",
            true,
        ),
        Banked(
            CALL_2560,
            b" e22000000FF",
            b" -FF000000 -FF000000 f7F00 -",
            false,
        ),
        // a carry tag names neither
        Banked(
            CALL_2560,
            b" -000000FF",
            b" -FF000000 -FF000000 -7F00 c2080",
            false,
        ),
        // a device with RAMPZ alone
        Banked(CALL_1284, b" e20000000FF", b" e20FE000001 f7F00 -", true),
        Banked(CALL_1284, b" -000000FF", b" -FC000003 f7F00 -", false),
        Banked(CALL_1284, b" e21000000FF", b" -FF000000 f7F00 -", false),
        Banked(
            CALL_1284,
            b" -000000FF",
            b" -FF000000 -FF000000 f7F00 -",
            false,
        ),
        // one with neither
        Banked(CALL_84, b" h0001000000FF", b" f7F00 -", true),
        Banked(CALL_84, b" e20000000FF", b" f7F00 -", false),
        Banked(CALL_84, b" -000000FF", b" -FF000000 f7F00 -", false),
        // without SPH no high byte of the stack pointer is known
        Banked(CALL_2313, b" l01000000FF", b" f7F00 -", true),
        Banked(CALL_2313, b" h0001000000FF", b" f7F00 -", false),
    ],
)];

fn is_told(alloc: Global, device: Device, text: &[u8], due: Option<usize>) -> bool {
    match read(alloc, device, text) {
        Ok(certificate) => due.is_none() && is_written(alloc, &certificate, text),
        Err(CertFault::Malformed(at)) => due == Some(at),
        Err(_) => false,
    }
}

impl WorkedRow for Banked {
    fn holds(&self, alloc: Global) -> bool {
        let Banked(front, word, tail, read) = *self;
        let Some(device) = device_named(front.0.as_bytes()) else {
            return false;
        };
        let pieces: [Piece; 2] = [
            (front.1, word, 32, tail),
            (b"\nwitness open\nend\n", b"", 0, b""),
        ];
        let due = if read { None } else { Some(front.2) };
        let mut text = Vec::new(alloc);
        let appended = append_all(&mut text, &pieces).is_ok();
        appended && is_told(alloc, device, text.as_slice(), due)
    }
}
