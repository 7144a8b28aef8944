//! Prints a digest of the lengths and texts of each 256 first words. The gate compares them with those of another disassembler;
//! `tests/disassembly/README.md` says how the expected digests are made.
#![tactic(auto)]

use avr_decode::{Device, decode, length, text};
use std::alloc::{AllocError, Global};
use std::io;
use table_digest::{EMPTY, digest};

// The word after each first word.
const SECOND: u16 = 0x9ABC;

// The digest with the line of a first word appended, which is at twice its number in the ATmega328P's flash: its length in words and its
// text, or `undefined` if no row of the table matches.
fn with_line(alloc: Global, before: u32, word: u16) -> Result<u32, AllocError> {
    let size: &[u8] = if length(word) == 2 { b"2 " } else { b"1 " };
    let sized = digest(before, size);
    let line = match &decode(word, SECOND) {
        Some(instr) => text(alloc, Device::M328, instr, u32::from(word % 8192 * 2))?,
        None => Vec::from_slice(alloc, b"undefined")?,
    };
    Ok(digest(digest(sized, line.as_slice()), b"\n"))
}

fn main(rt: HostRuntime) -> io::Result<()> {
    for page in 0..256u16 {
        let mut value = EMPTY;
        for low in 0..256u16 {
            value = with_line(rt.alloc(), value, page * 256 + low)?;
        }
        println!(rt; "{page:02X} {value:08X}")?;
    }
    Ok(())
}
