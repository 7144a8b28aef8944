//! The program: the top call with real files and the standard output.
#![tactic(auto)]

mod disk;

use disk::{DiskFiles, StdSink};
use stack_core::{Status, stackbound};
use std::alloc::{AllocError, Global};
use std::env;
use std::io::ErrorKind;
use std::process::ExitCode;

// The words after the program's name. None if one isn't UTF-8.
fn words_of(rt: &HostRuntime) -> Result<Option<Vec<String>>, AllocError> {
    match env::args(rt) {
        Ok(args) => {
            let mut words = Vec::new(rt.alloc());
            for word in args.skip(1) {
                words.push(word)?;
            }
            Ok(Some(words))
        }
        Err(error) if error.kind() == ErrorKind::OutOfMemory => Err(AllocError),
        Err(_) => Ok(None),
    }
}

// The status of the top call with real files and the standard output.
fn answer(rt: &HostRuntime, alloc: Global, owned: &[String]) -> Result<Status, AllocError> {
    let mut words: Vec<&str> = Vec::new(alloc);
    for word in owned {
        words.push(word.as_str())?;
    }
    let mut files = DiskFiles::new(rt);
    let mut out = StdSink::new(rt);
    Ok(stackbound(alloc, &words, &mut files, &mut out))
}

// The status of this run. If a word isn't UTF-8, the words are no command; nor is an empty list.
fn status(rt: &HostRuntime) -> Result<Status, AllocError> {
    match words_of(rt)? {
        Some(words) => answer(rt, rt.alloc(), &words),
        None => answer(rt, rt.alloc(), &[]),
    }
}

// Answers the words behind the program's name, and ends with the top call's status, or out of memory if there is none for the words.
fn main(rt: HostRuntime) -> ExitCode {
    let status = match status(&rt) {
        Ok(status) => status,
        Err(_) => Status::OutOfMemory,
    };
    ExitCode::from(status.code())
}
