//! A certificate of the first version with each kind of line, which is written as it was read. Small damages to it are in
//! tests/end_to_end, with the positions of the refusals.

use super::second_version::{LATER, PAIRS, has_its_facts, has_later_values};
use avr_model::device::Device;
use cert_format::{CertFault, Certificate, Limit, read, write};
use edge_rules::NodeForm;
use node_keys::Kind;
use row_tests::WorkedRow;
use sp_domain::{CarryTag, Slot, Tag};
use std::alloc::{AllocError, Global};
use text_base::LineWriter;

// A piece of a text: the bytes before, between and after this many equal words.
pub(crate) type Piece = (&'static [u8], &'static [u8], usize, &'static [u8]);

// A certificate with each kind of line.
const PIECES: &[Piece] = &[
    (b"stackcert 1\n", b"", 0, b""),
    (b"bound 4\n", b"", 0, b""),
    (b"assume 2\n", b"", 0, b""),
    (b"jump 0003 0004 0005\n", b"", 0, b""),
    (b"prove 0004\n", b"", 0, b""),
    (b"instances 3\n", b"", 0, b""),
    (b"inst root 0000 0000000 0 rank 2 need 4\n", b"", 0, b""),
    (b"inst call 0010 0000001 1 rank 1 need 3\n", b"", 0, b""),
    (b"inst v2 0002 0000001 0 rank 0 need 2\n", b"", 0, b""),
    (b"nodes 4\n", b"", 0, b""),
    (b"node 0 0000 0000000 0 0 c0", b" -0000", 32, b" -7F00 -\n"),
    (b"node 0 0001 0000000 0 0 c1 from 0\n", b"", 0, b""),
    (
        b"node 0 0002 0000000 0 1 o2,k08",
        b" -0F05",
        32,
        b" -7F00 - -0000 .\n",
    ),
    (
        b"node 1 0010 0000001 1 0 o3,t0003",
        b" e1F0F05",
        32,
        b" f7F00 b0301 . l03FFFE h0003FF08\n",
    ),
    (b"witness attained\n", b"", 0, b""),
    (b"schedule 1\nfill 00\nend\n", b"", 0, b""),
    (b"end\n", b"", 0, b""),
];

// Appends a piece.
fn append(text: &mut Vec<u8>, piece: &Piece) -> Result<(), AllocError> {
    let (head, word, count, tail) = *piece;
    text.extend_from_slice(head)?;
    for _ in 0..count {
        text.extend_from_slice(word)?;
    }
    text.extend_from_slice(tail)?;
    Ok(())
}

// All pieces.
pub(crate) fn append_all(text: &mut Vec<u8>, pieces: &[Piece]) -> Result<(), AllocError> {
    for piece in pieces {
        append(text, piece)?;
    }
    Ok(())
}

// Whether some of its values are those of the words in the certificate with each kind of line.
fn has_its_values(certificate: &Certificate) -> Option<bool> {
    let vector = certificate.instances().get(2)?;
    let second = certificate.nodes().get(1)?;
    let third = certificate.nodes().get(2)?;
    let fourth = certificate.nodes().get(3)?;
    let NodeForm::From(from) = &second.1 else {
        return None;
    };
    let NodeForm::State(held) = &fourth.1 else {
        return None;
    };
    let state = held.get();
    let last = state.registers.get(31)?;
    let keys = *from == 0 && vector.key.kind == Kind::Vector(2) && third.0.delay;
    let value = last.tag == Tag::Entry(31) && last.bits.value == 5;
    let behind = state.flags.carry == CarryTag::Borrow(3, 1)
        && state.slots.at(0) == Some(Slot::Free);
    Some(keys && value && behind)
}

// Appends the line of a node of the root at this word, with a stack pointer and `from 0`.
fn append_node(out: &mut LineWriter, word: u16, sp: &[u8]) -> Result<(), AllocError> {
    out.word(b"node 0")?;
    out.hex(u32::from(word), 4)?;
    out.word(b"0000000 0 0")?;
    out.word(sp)?;
    out.word(b"from 0")?;
    out.end_line()
}

// Writes a certificate whose nodes have 8,388,607 cells, and more nodes with one cell each.
fn write_cells(out: &mut LineWriter, more: u16) -> Result<(), AllocError> {
    out.word(
        b"stackcert 1\nbound 0\nassume 0\ninstances 1\ninst root 0000 0000000 0 rank 0 need 0\nnodes",
    )?;
    out.dec(u64::from(more).wrapping_add(4095))?;
    out.end_line()?;
    out.word(b"node 0 0000 0000000 0 0 c0")?;
    for _ in 0..32 {
        out.word(b"-0000")?;
    }
    out.word(b"-7F00 -")?;
    out.end_line()?;
    for word in 1..4095 {
        append_node(out, word, b"c2048")?;
    }
    for word in 0..more {
        append_node(out, word.wrapping_add(4095), b"c0")?;
    }
    out.word(b"witness open\nend")?;
    out.end_line()
}

// Which version a certificate has.
enum Version {
    First,
    Second,
    Third,
}

/// The pieces of a certificate, and its version.
pub struct Sample(&'static [Piece], Version);

pub static VERSIONS: [(&str, &[Sample]); 1] = [(
    "version",
    &[
        Sample(PIECES, Version::First),
        Sample(LATER, Version::Second),
        Sample(PAIRS, Version::Third),
    ],
)];

fn has_values(certificate: &Certificate, version: &Version) -> Option<bool> {
    match version {
        Version::First => has_its_values(certificate),
        Version::Second => has_later_values(certificate),
        Version::Third => has_its_facts(certificate),
    }
}

// Whether it is written as it was read.
pub(crate) fn is_written(alloc: Global, certificate: &Certificate, text: &[u8]) -> bool {
    match write(alloc, certificate) {
        Ok(again) => again.as_slice() == text,
        Err(_) => false,
    }
}

fn is_read(alloc: Global, text: &[u8], version: &Version) -> bool {
    match read(alloc, Device::M328, text) {
        Ok(certificate) => {
            is_written(alloc, &certificate, text) && has_values(&certificate, version) == Some(true)
        }
        Err(_) => false,
    }
}

impl WorkedRow for Sample {
    fn holds(&self, alloc: Global) -> bool {
        let mut text = Vec::new(alloc);
        let appended = append_all(&mut text, self.0).is_ok();
        appended && is_read(alloc, text.as_slice(), &self.1)
    }
}

/// The number of nodes with one cell after those with 8,388,607 cells, and the refusal, if there is one.
pub struct Cells(u16, Option<CertFault>);

pub static CELLS: [(&str, &[Cells]); 1] = [(
    "cells",
    &[
        Cells(1, None),
        Cells(2, Some(CertFault::Limit(Limit::Cells))),
    ],
)];

fn is_refused(alloc: Global, text: &[u8], due: &Option<CertFault>) -> bool {
    match read(alloc, Device::M328, text) {
        Ok(_) => due.is_none(),
        Err(fault) => *due == Some(fault),
    }
}

impl WorkedRow for Cells {
    fn holds(&self, alloc: Global) -> bool {
        let mut out = LineWriter::new(alloc);
        let written = write_cells(&mut out, self.0).is_ok();
        written && is_refused(alloc, &out.finish(), &self.1)
    }
}
