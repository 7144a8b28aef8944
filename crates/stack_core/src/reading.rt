//! The files of a command, read in order.

ghost use Rattle.std.specs.Prelude.{◌≡◌, ℕ, List};
ghost use Rattle.commands.specs.Views.{text_of, command_seen};
ghost use Rattle.replies.specs.Reading as caps;
ghost use Rattle.stack_core.specs.Reading.{reported, Fetches, FetchesBytes, FetchesOptional, Gathers};

use commands::{Command, Work};
use std::alloc::Global;
use text_base::{FileFault, Files};

// The most bytes of a firmware: 16 MiB.
const FIRMWARE_CAP: usize = 16_777_216;

// The most bytes of a schedule: 16 MiB.
const SCHEDULE_CAP: usize = 16_777_216;

// The most bytes of a certificate: 192 MiB.
const CERTIFICATE_CAP: usize = 201_326_592;

// The most bytes of the text of peripherals: 1 MiB.
const PERIPHERALS_CAP: usize = 1_048_576;

// The most bytes of an assumption file: 1 MiB.
const ASSUMPTION_CAP: usize = 1_048_576;

/// Why not all files of a command were read.
#[derive(Clone, Copy)]
pub enum Unread<'a> {
    /// The file of this name is longer than its cap.
    Long(&'a str),
    /// The file of this name could not be read.
    Failed(&'a str),
    /// Out of memory.
    Memory,
}

/// The contents of a command's files. Without a firmware or a second file, its bytes are empty.
#[derive(Drop)]
pub struct Contents {
    pub firmware: Vec<u8>,
    pub second: Vec<u8>,
    pub assumptions: Option<Vec<u8>>,
}

fn fetch<'a, F: Files>(
    alloc: Global,
    files: &mut F,
    name: &'a str,
    cap: usize,
) -> Result<Vec<u8>, Unread<'a>>
    ensures fetched { Fetches (reported F.holds F.faults F.blamed files.old files.new) name.now cap result }
    ensures holds { (n : List ℕ) → F.holds files.new n ≡ F.holds files.old n }
{
    match files.read(alloc, name, cap) {
        Ok(bytes) => Ok(bytes),
        Err(FileFault::TooLong) => Err(Unread::Long(name)),
        Err(FileFault::Failed) => Err(Unread::Failed(name)),
        Err(FileFault::Memory) => Err(Unread::Memory),
    }
}

// The bytes of an optional file; none if the command has no such file.
fn fetch_bytes<'a, F: Files>(
    alloc: Global,
    files: &mut F,
    name: Option<&'a str>,
    cap: usize,
) -> Result<Vec<u8>, Unread<'a>>
    ensures fetched { FetchesBytes (reported F.holds F.faults F.blamed files.old files.new) (text_of name.entry) cap result }
    ensures holds { (n : List ℕ) → F.holds files.new n ≡ F.holds files.old n }
{
    match name {
        Some(name) => fetch(alloc, files, name, cap),
        None => Ok(Vec::new(alloc)),
    }
}

// The bytes of an optional file; no file differs from an empty one.
fn fetch_optional<'a, F: Files>(
    alloc: Global,
    files: &mut F,
    name: Option<&'a str>,
    cap: usize,
) -> Result<Option<Vec<u8>>, Unread<'a>>
    ensures fetched { FetchesOptional (reported F.holds F.faults F.blamed files.old files.new) (text_of name.entry) cap result }
    ensures holds { (n : List ℕ) → F.holds files.new n ≡ F.holds files.old n }
{
    match name {
        Some(name) => Ok(Some(fetch(alloc, files, name, cap)?)),
        None => Ok(None),
    }
}

// The cap of a command's second file.
fn second_cap(command: &Command<'_>) -> usize
    ensures { result ≡ caps.second_cap (command_seen command.now) }
{
    let Command::On(request) = command else {
        return CERTIFICATE_CAP;
    };
    match &request.work {
        Work::Run { .. } => SCHEDULE_CAP,
        Work::Simulate { .. } => PERIPHERALS_CAP,
        _ => CERTIFICATE_CAP,
    }
}

/// Reads the files of a command in order, up to the first that is too long or cannot be read.
pub fn gather<'a, F: Files>(
    alloc: Global,
    files: &mut F,
    command: &Command<'a>,
) -> Result<Contents, Unread<'a>>
    ensures { Gathers (reported F.holds F.faults F.blamed files.old files.new) (command_seen command.now) result }
{
    let firmware = match fetch_bytes(alloc, files, command.firmware(), FIRMWARE_CAP) {
        Ok(bytes) => bytes,
        Err(fault) => return Err(fault),
    };
    let second = match fetch_bytes(alloc, files, command.second(), second_cap(command)) {
        Ok(bytes) => bytes,
        Err(fault) => return Err(fault),
    };
    let assumptions = match fetch_optional(alloc, files, command.assume(), ASSUMPTION_CAP) {
        Ok(list) => list,
        Err(fault) => return Err(fault),
    };
    Ok(Contents {
        firmware,
        second,
        assumptions,
    })
}
