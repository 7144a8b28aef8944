//! Files and a sink in memory, with faults at chosen calls. Calls are counted from 0, also those that fail.

ghost use Rattle.std.specs.Prelude.{◌≡◌, ◌≢◌, ◌≤◌, ◌<◌, ◌+◌, Some, None, OnOk, OnErr, IfOk, IfSome, IfNone, [], ◌∷◌, ◌++◌, take, ℕ, List, length};
ghost use Rattle.std.specs.Option.{option_copied};
ghost use Rattle.std.specs.List.{find};
ghost use Rattle.std.specs.Str.{bytes_eq};
ghost use Rattle.text_base.specs.declared.outside.FileFault.TheVariants.{Failed as ReadFailed, TooLong, Memory as NoMemory};
ghost use Rattle.text_base.specs.declared.outside.SinkFault.TheVariants.{Failed as PutFailed, Memory as NoRoom};
ghost use Rattle.text_base.specs.Outside.{Bytes, Missing, TellsMissing, Rose, Gives, MayExceed, Exceeds, IsBlamed, greatest_count, grown};
ghost use Rattle.text_base.specs.Answers.{Answers};
ghost use Rattle.text_base.specs.Memory.{FileStore, Taken, held_in, blamed_of, is_listed, within, read_answer, after_read, limit_of, limited, put_answer, after_put};

use crate::outside::{FileFault, Files, Sink, SinkFault};
use std::alloc::{AllocError, Global};
use std::marker::Model;

// A file in memory.
#[derive(Drop)]
struct File {
    name: String,
    bytes: Vec<u8>,
}

impl Model for File {
    ghost use Rattle.std.specs.String.{string_bytes};
    ghost use Rattle.text_base.specs.Memory.{HeldFile};

    ghost Value = { HeldFile };

    ghost view = { λ f. record { name = string_bytes f.name; bytes = f.bytes.items } };
}

/// Files in memory. A read fails exactly if its call is listed or no file of that name was added.
#[derive(Drop)]
pub struct MemFiles {
    alloc: Global,
    files: Vec<File>,
    calls: u64,
    failing: Vec<u32>,
    faults: u64,
    blamed: Option<String>,
}

impl Model for MemFiles {
    ghost use Rattle.std.specs.String.{string_bytes};
    ghost use Rattle.std.specs.Option.{option_map};
    ghost use Rattle.text_base.specs.Memory.{FileStore};

    ghost Value = { FileStore };

    ghost view = { λ m. record { files = m.files.items; calls = m.calls; failing = m.failing.items; faults = m.faults; blamed = option_map string_bytes m.blamed } };
}

impl MemFiles {
    /// No files.
    pub fn new(alloc: Global) -> MemFiles
        ensures { result ≡ record { files = []; calls = 0; failing = []; faults = 0; blamed = None } }
    {
        MemFiles {
            alloc,
            files: Vec::new(alloc),
            calls: 0,
            failing: Vec::new(alloc),
            faults: 0,
            blamed: None,
        }
    }

    /// Adds a file with these bytes under a name, replacing an earlier one. If memory runs out, nothing changes.
    pub fn add(&mut self, name: &str, bytes: &[u8]) -> Result<(), AllocError>
        ensures added { OnOk result (self.new ≡ record self.old { files = record { name = name.now; bytes = bytes.now } ∷ self.old.files }) }
        ensures refused { OnErr result (self.new ≡ self.old) }
    {
        let file = File {
            name: String::from_str(self.alloc, name)?,
            bytes: bytes.to_vec(self.alloc)?,
        };
        self.files.insert(0, file)?;
        Ok(())
    }

    /// Makes the read of this number fail. If memory runs out, nothing changes.
    pub fn fail(&mut self, call: u32) -> Result<(), AllocError>
        ensures listed { OnOk result (self.new ≡ record self.old { failing = self.old.failing ++ call ∷ [] }) }
        ensures refused { OnErr result (self.new ≡ self.old) }
    {
        self.failing.push(call)?;
        Ok(())
    }
}

// The file that was last added under a name.
fn find_file<'a>(files: &'a [File], name: &str) -> Option<&'a File>
    ensures { option_copied result ≡ find (λ f. bytes_eq f.name name.now) files.now }
{
    for file in files {
        if file.name.as_str() == name {
            return Some(file);
        }
    }
    None
}

// The bytes under a name.
fn bytes_under<'a>(files: &'a [File], name: &str) -> Option<&'a [u8]>
    ensures held { IfSome result (λ b. held_in files.now name.now ≡ Bytes b.now) }
    ensures missing { IfNone result (held_in files.now name.now ≡ Missing) }
{
    match find_file(files, name) {
        Some(file) => Some(&file.bytes),
        None => None,
    }
}

// Whether the call is in the list.
fn has_call(calls: &[u32], call: u64) -> bool
    ensures { result ≡ is_listed call calls.now }
{
    for listed in calls {
        if u64::from(*listed) == call {
            return true;
        }
    }
    false
}

// A copy of at most `cap` bytes.
fn copy_within(alloc: Global, bytes: &[u8], cap: usize) -> Result<Vec<u8>, FileFault>
    ensures exact { Answers (λ v. v.items) NoMemory result (within (Bytes bytes.now) cap) }
    ensures bytes { IfOk result (λ v. v.items ≡ bytes.now) }
    ensures cap { IfOk result (λ v. length v.items ≤ cap) }
    ensures long { cap < length bytes.now → result ≡ Err TooLong }
    ensures unfailing { result ≢ Err ReadFailed }
{
    if bytes.len() > cap {
        return Err(FileFault::TooLong);
    }
    match bytes.to_vec(alloc) {
        Ok(copy) => Ok(copy),
        Err(_) => Err(FileFault::Memory),
    }
}

impl Files for MemFiles {
    ghost holds = { λ m name. held_in m.files name };

    ghost faults = { λ m. m.faults };

    ghost blamed = { λ m. blamed_of m.blamed };

    fn read(&mut self, alloc: Global, name: &str, cap: usize) -> Result<Vec<u8>, FileFault>
        ensures bytes { IfOk result (λ v. Gives (held_in self.old.files name.now) v.items) }
        ensures cap { IfOk result (λ v. length v.items ≤ cap) }
        ensures missing { TellsMissing (held_in self.old.files name.now) → result ≢ Err NoMemory → result ≡ Err ReadFailed }
        ensures too_long { result ≡ Err TooLong → MayExceed (held_in self.old.files name.now) cap }
        ensures long { Exceeds (held_in self.old.files name.now) cap → result ≢ Err ReadFailed → result ≢ Err NoMemory → result ≡ Err TooLong }
        ensures same { (n : List ℕ) → held_in self.new.files n ≡ held_in self.old.files n }
        ensures later { self.old.faults ≤ self.new.faults }
        ensures bounded { self.new.faults ≤ greatest_count }
        ensures failed { result ≡ Err ReadFailed → Rose self.old.faults self.new.faults }
        ensures blames { result ≡ Err ReadFailed → IsBlamed (blamed_of self.new.blamed) name.now }
        ensures kept { result ≢ Err ReadFailed → self.new.faults ≡ self.old.faults }
        ensures kept_blame { result ≢ Err ReadFailed → blamed_of self.new.blamed ≡ blamed_of self.old.blamed }
        ensures exact { Answers (λ v. v.items) NoMemory result (read_answer self.old name.now cap) }
        ensures state { self.new ≡ after_read self.old name.now result }
    {
        let call = self.calls;
        self.calls = call.saturating_add(1);
        let faults = self.faults;
        match bytes_under(&self.files, name) {
            Some(bytes) if !has_call(&self.failing, call) => copy_within(alloc, bytes, cap),
            _ => {
                let Ok(own_name) = String::from_str(alloc, name) else {
                    return Err(FileFault::Memory);
                };
                self.faults = faults.saturating_add(1);
                self.blamed = Some(own_name);
                Err(FileFault::Failed)
            }
        }
    }
}

/// A sink in memory. A put fails exactly if its call is listed to fail. Else it takes the whole piece, or as many bytes as are listed for
/// the call.
#[derive(Drop)]
pub struct MemSink {
    taken: Vec<u8>,
    calls: u64,
    failing: Vec<u32>,
    shorts: Vec<(u32, usize)>,
    faults: u64,
}

impl Model for MemSink {
    ghost use Rattle.text_base.specs.Memory.{Taken};

    ghost Value = { Taken };

    ghost view = { λ m. record { bytes = m.taken.items; calls = m.calls; failing = m.failing.items; shorts = m.shorts.items; faults = m.faults } };
}

// How many of the offered bytes a call takes: at most the limit that is listed for it.
fn allowed(shorts: &[(u32, usize)], call: u64, offered: usize) -> usize
    ensures { result ≡ limited (limit_of call shorts.now) offered }
{
    for short in shorts {
        if u64::from(short.0) == call {
            return short.1.min(offered);
        }
    }
    offered
}

impl MemSink {
    /// A sink that has taken nothing.
    pub fn new(alloc: Global) -> MemSink
        ensures { result ≡ record { bytes = []; calls = 0; failing = []; shorts = []; faults = 0 } }
    {
        MemSink {
            taken: Vec::new(alloc),
            calls: 0,
            failing: Vec::new(alloc),
            shorts: Vec::new(alloc),
            faults: 0,
        }
    }

    /// Makes the put of this number fail. If memory runs out, nothing changes.
    pub fn fail(&mut self, call: u32) -> Result<(), AllocError>
        ensures listed { OnOk result (self.new ≡ record self.old { failing = self.old.failing ++ call ∷ [] }) }
        ensures refused { OnErr result (self.new ≡ self.old) }
    {
        self.failing.push(call)?;
        Ok(())
    }

    /// Makes the put of this number take at most `most` bytes. If memory runs out, nothing changes.
    pub fn short(&mut self, call: u32, most: usize) -> Result<(), AllocError>
        ensures listed { OnOk result (self.new ≡ record self.old { shorts = (call, most) ∷ self.old.shorts }) }
        ensures refused { OnErr result (self.new ≡ self.old) }
    {
        self.shorts.insert(0, (call, most))?;
        Ok(())
    }

    /// The bytes taken so far.
    pub fn written(&self) -> &[u8]
        ensures { result.now ≡ self.now.bytes }
    {
        &self.taken
    }
}

impl Sink for MemSink {
    ghost written = { λ m. Some m.bytes };

    ghost faults = { λ m. m.faults };

    fn put(&mut self, piece: &[u8]) -> Result<usize, SinkFault>
        ensures count { IfOk result (λ n. n ≤ length piece.now) }
        ensures taken { IfOk result (λ n. Some self.new.bytes ≡ grown (Some self.old.bytes) (take n piece.now)) }
        ensures refused { OnErr result (Some self.new.bytes ≡ Some self.old.bytes) }
        ensures later { self.old.faults ≤ self.new.faults }
        ensures bounded { self.new.faults ≤ greatest_count }
        ensures failed { result ≡ Err PutFailed → Rose self.old.faults self.new.faults }
        ensures stuck { result ≡ Ok 0 → 0 < length piece.now → Rose self.old.faults self.new.faults }
        ensures kept { result ≡ Err NoRoom → self.new.faults ≡ self.old.faults }
        ensures taking { IfOk result (λ n. 0 < n → self.new.faults ≡ self.old.faults) }
        ensures nothing { IfOk result (λ _. length piece.now ≡ 0 → self.new.faults ≡ self.old.faults) }
        ensures exact { Answers (λ n. n) NoRoom result (put_answer self.old (length piece.now)) }
        ensures state { self.new ≡ after_put self.old piece.now result }
    {
        let call = self.calls;
        self.calls = call.saturating_add(1);
        let faults = self.faults;
        if has_call(&self.failing, call) {
            self.faults = faults.saturating_add(1);
            return Err(SinkFault::Failed);
        }
        let count = allowed(&self.shorts, call, piece.len());
        match self.taken.extend_from_slice(&piece[..count]) {
            Ok(()) => {
                if count == 0 && !piece.is_empty() {
                    self.faults = faults.saturating_add(1);
                }
                Ok(count)
            }
            Err(_) => Err(SinkFault::Memory),
        }
    }
}
