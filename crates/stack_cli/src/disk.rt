//! Real files and the standard output for the top call: the trusted edge. They report no contents. A call that a signal interrupts is
//! repeated, and is no fault.

ghost use Rattle.std.specs.Prelude.{None, IfOk, IfSome, length, ◌≡◌, ◌≤◌};
ghost use Rattle.text_base.specs.Outside.{Untold, Unsaid};

use std::alloc::Global;
use std::fs::File;
use std::io::{ErrorKind, Read, Write};
use std::{fs, io};
use text_base::{FileFault, Files, Sink, SinkFault};

/// Files on disk. They report neither their contents nor whose read failed.
#[derive(Drop)]
pub struct DiskFiles<'a> {
    rt: &'a HostRuntime,
    faults: u64,
}

impl<'a> DiskFiles<'a> {
    /// Files of this run, with no fault so far.
    pub fn new(rt: &'a HostRuntime) -> DiskFiles<'a> {
        DiskFiles { rt, faults: 0 }
    }
}

// The fault of an error of the system.
fn fault_of(error: &io::Error) -> FileFault {
    if error.kind() == ErrorKind::OutOfMemory {
        FileFault::Memory
    } else {
        FileFault::Failed
    }
}

// The open file.
fn open(rt: &HostRuntime, name: &str) -> Result<File, FileFault> {
    for _ in 0..u64::MAX {
        match fs::open(rt, name) {
            Ok(file) => return Ok(file),
            Err(error) if error.kind() == ErrorKind::Interrupted => {}
            Err(error) => return Err(fault_of(&error)),
        }
    }
    Err(FileFault::Failed)
}

// Reads the file's next bytes into the piece. Returns how many; 0 at the end.
fn read_piece(file: &mut File, piece: &mut [u8]) -> Result<usize, FileFault>
    ensures count { IfOk result (λ n. n ≤ length piece.old) }
    ensures room { length piece.new ≡ length piece.old }
{
    for _ in 0..u64::MAX {
        match file.read(piece) {
            Ok(count) => return Ok(count),
            Err(error) if error.kind() == ErrorKind::Interrupted => {}
            Err(error) => return Err(fault_of(&error)),
        }
    }
    Err(FileFault::Failed)
}

// The bytes of a file, if they are at most `cap`.
fn read_whole(alloc: Global, rt: &HostRuntime, name: &str, cap: usize) -> Result<Vec<u8>, FileFault>
    ensures { IfOk result (λ v. length v.items ≤ cap) }
{
    let mut file = open(rt, name)?;
    let mut bytes = Vec::new(alloc);
    let mut piece = [0u8; 4096];
    for _ in 0..u64::MAX {
        let count = read_piece(&mut file, &mut piece)?;
        if count == 0 {
            break;
        }
        if bytes.extend_from_slice(&piece[..count]).is_err() {
            return Err(FileFault::Memory);
        }
        if bytes.len() > cap {
            return Err(FileFault::TooLong);
        }
    }
    if bytes.len() > cap {
        return Err(FileFault::TooLong);
    }
    Ok(bytes)
}

impl<'a> Files for DiskFiles<'a> {
    ghost holds = { λ m name. Untold };

    ghost faults = { λ m. m.faults };

    ghost blamed = { λ m. Unsaid };

    fn read(&mut self, alloc: Global, name: &str, cap: usize) -> Result<Vec<u8>, FileFault> {
        let _faults = self.faults;
        let outcome = read_whole(alloc, self.rt, name, cap);
        if let Err(FileFault::Failed) = &outcome {
            self.faults = self.faults.saturating_add(1);
        }
        outcome
    }
}

/// The standard output. It does not report what it took.
#[derive(Drop)]
pub struct StdSink<'a> {
    rt: &'a HostRuntime,
    faults: u64,
}

impl<'a> StdSink<'a> {
    /// The output of this run, with no fault so far.
    pub fn new(rt: &'a HostRuntime) -> StdSink<'a> {
        StdSink { rt, faults: 0 }
    }
}

// Writes the first bytes of the piece. Returns how many; none if the system refuses.
fn write_piece(rt: &HostRuntime, piece: &[u8]) -> Option<usize>
    ensures { IfSome result (λ n. n ≤ length piece.now) }
{
    for _ in 0..u64::MAX {
        match io::writer(rt).write(piece) {
            Ok(count) => return Some(count),
            Err(error) if error.kind() == ErrorKind::Interrupted => {}
            Err(_) => return None,
        }
    }
    None
}

impl<'a> Sink for StdSink<'a> {
    ghost written = { λ m. None };

    ghost faults = { λ m. m.faults };

    fn put(&mut self, piece: &[u8]) -> Result<usize, SinkFault> {
        let _faults = self.faults;
        match write_piece(self.rt, piece) {
            Some(count) => {
                if count == 0 && !piece.is_empty() {
                    self.faults = self.faults.saturating_add(1);
                }
                Ok(count)
            }
            None => {
                self.faults = self.faults.saturating_add(1);
                Err(SinkFault::Failed)
            }
        }
    }
}
