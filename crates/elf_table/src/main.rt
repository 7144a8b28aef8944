//! Prints the contents of three ELF files of a real toolchain, for the ATmega328P: a digest of the words of flash, the end of static data,
//! and the names. The gate compares them with those of the toolchain; `tests/elf/README.md` says how the expected text is made.
#![tactic(auto)]

use elf_load::{Loaded, is_elf, load};
use flash_image::{Device, Flash};
use std::{fs, io, str};
use table_digest::{EMPTY, digest};

const FILES: [&str; 3] = ["blink.elf", "ticks.elf", "sorted.elf"];

// The digest of the bytes of flash, the low byte of each word first.
fn digest_of(flash: &Flash) -> u32 {
    let mut value = EMPTY;
    for word in flash.words() {
        value = digest(value, &word.to_le_bytes());
    }
    value
}

// Prints a line for each named word.
fn show_names(rt: &HostRuntime, loaded: &Loaded) -> io::Result<()> {
    for word in 0..0x4000u32 {
        if let Some(name) = loaded.names.at(word) {
            if let Ok(text) = str::from_utf8(name) {
                println!(rt; "{word:04X} {text}")?;
            }
        }
    }
    Ok(())
}

// Prints the contents of a file.
fn show(rt: &HostRuntime, name: &str) -> io::Result<()> {
    let bytes = fs::read(rt, name)?;
    if !is_elf(&bytes) {
        return println!(rt; "{name} isn't ELF");
    }
    match load(rt.alloc(), Device::M328, &bytes) {
        Ok(loaded) => {
            println!(rt; "{name} words {:08X}", digest_of(&loaded.flash))?;
            match loaded.static_end {
                Some(end) => println!(rt; "static {end:04X}")?,
                None => println!(rt; "static -")?,
            }
            show_names(rt, &loaded)
        }
        Err(fault) => println!(rt; "{name} {fault}"),
    }
}

fn main(rt: HostRuntime) -> io::Result<()> {
    for name in FILES {
        show(&rt, name)?;
    }
    Ok(())
}
