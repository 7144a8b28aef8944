//! The printed lines.

ghost use Rattle.std.specs.Prelude.{◌≡◌, ◌<◌, [], ◌∷◌, IfOk, OnOk, Some, decimal};
ghost use Rattle.std.specs.Option.{option_map};
ghost use Rattle.elf_load.specs.Refusing.{refusal_of};
ghost use Rattle.assumption_files.specs.Spelling.{word_address_text};
ghost use Rattle.text_base.specs.Writing.{with_words, with_end};
ghost use Rattle.peripherals.specs.Simulating.{report_of};
ghost use Rattle.replies.specs.Texts.{told, usage, read_fault, too_long, raw_fault, elf_refused, firmware_outside, IsRefusalWritten, AreWritten, assumption_words, assumptions_refused, limit_word, certificate_words, certificate_refused, schedule_malformed, schedule_illegal, peripherals_refused, witness_word, accepted, reason_words, rejected, witness_rejected, stop_words, run_text, inst_told, write_words};

use crate::raw::RawRefusal;
use assumption_files::{AssumeText, write_word_address};
use avr_model::choice::{Flag, Stop};
use avr_model::device::Device;
use avr_model::naming::class_of;
use cert_check::Reason;
use cert_format::{CertFault, Limit};
use cert_writing::write_key;
use elf_load::ElfFault;
use peripherals::PeripheralsFault;
use std::alloc::{AllocError, Global};
use text_base::LineWriter;
use witness_replay::ReplayReport;

// The text of a line that ends here.
pub(crate) fn ended(mut line: LineWriter) -> Result<Vec<u8>, AllocError>
    ensures { IfOk result (λ v. v.items ≡ (with_end line).bytes) }
{
    line.end_line()?;
    Ok(line.finish())
}

// A line of two words and a third.
fn three_words(
    alloc: Global,
    first: &[u8],
    second: &[u8],
    third: &[u8],
) -> Result<Vec<u8>, AllocError>
    ensures { IfOk result (λ v. v.items ≡ told (first.now ∷ second.now ∷ third.now ∷ [])) }
{
    let mut line = LineWriter::new(alloc);
    put_two(&mut line, first, second)?;
    line.word(third)?;
    ended(line)
}

/// The line for words that are no command.
pub fn usage(alloc: Global) -> Result<Vec<u8>, AllocError>
    ensures { IfOk result (λ v. v.items ≡ usage) }
{
    let mut line = LineWriter::new(alloc);
    line.word(b"usage")?;
    ended(line)
}

/// The line for a file that cannot be read.
pub fn read_fault(alloc: Global, name: &str) -> Result<Vec<u8>, AllocError>
    ensures { IfOk result (λ v. v.items ≡ read_fault name.now) }
{
    three_words(alloc, b"read", b"fault", name.as_bytes())
}

/// The line for a file beyond its cap.
pub fn too_long(alloc: Global, name: &str) -> Result<Vec<u8>, AllocError>
    ensures { IfOk result (λ v. v.items ≡ too_long name.now) }
{
    three_words(alloc, b"too", b"long", name.as_bytes())
}

/// The refusal of a raw file.
pub fn raw_fault(alloc: Global, refusal: RawRefusal) -> Result<Vec<u8>, AllocError>
    ensures { IfOk result (λ v. v.items ≡ raw_fault refusal) }
{
    let mut line = LineWriter::new(alloc);
    put_two_and_number(&mut line, b"firmware", b"raw", refusal.number())?;
    ended(line)
}

// The words of the refusal of an ELF file; `None` if memory runs out.
fn put_refusal(line: &mut LineWriter, fault: &ElfFault) -> Result<(), AllocError>
    ensures { OnOk result (IsRefusalWritten line.old line.new (refusal_of fault.now)) }
{
    match *fault {
        ElfFault::Short(at) => put_two_and_number(line, b"1", b"at", at),
        ElfFault::NotElf32Little => line.word(b"2"),
        ElfFault::NotExecutable => line.word(b"3"),
        ElfFault::NotAvr(machine) => put_two_and_number(line, b"4", b"machine", u64::from(machine)),
        ElfFault::EntrySize => line.word(b"5"),
        ElfFault::SegmentOutside(i) => put_two_and_number(line, b"6", b"segment", u64::from(i)),
        ElfFault::Overlap(j, i) => {
            put_two_and_number(line, b"7", b"segments", u64::from(j))?;
            line.dec(u64::from(i))
        }
        ElfFault::Memory => Err(AllocError),
    }
}

/// The refusal of an ELF file; `None` if memory runs out.
pub fn elf_refused(alloc: Global, fault: &ElfFault) -> Result<Vec<u8>, AllocError>
    ensures { IfOk result (λ v. option_map elf_refused (refusal_of fault.now) ≡ Some v.items) }
{
    let mut line = LineWriter::new(alloc);
    put_two(&mut line, b"firmware", b"elf")?;
    put_refusal(&mut line, fault)?;
    ended(line)
}

/// The line for a firmware beyond the device's flash, with the least such word.
pub fn firmware_outside(alloc: Global, device: Device, word: u32) -> Result<Vec<u8>, AllocError>
    ensures { IfOk result (λ v. v.items ≡ firmware_outside device word) }
{
    let mut line = LineWriter::new(alloc);
    put_two(&mut line, b"firmware", b"outside")?;
    put_address(&mut line, device, b"at", word)?;
    ended(line)
}

// Two words.
pub(crate) fn put_two(line: &mut LineWriter, first: &[u8], second: &[u8]) -> Result<(), AllocError>
    ensures { OnOk result (line.new ≡ with_words line.old (first.now ∷ second.now ∷ [])) }
{
    line.word(first)?;
    line.word(second)
}

// A word, a word and a number.
pub(crate) fn put_two_and_number(
    line: &mut LineWriter,
    first: &[u8],
    second: &[u8],
    number: u64,
) -> Result<(), AllocError>
    ensures { OnOk result (line.new ≡ with_words line.old (first.now ∷ second.now ∷ decimal number ∷ [])) }
{
    put_two(line, first, second)?;
    line.dec(number)
}

// A word and a number.
pub(crate) fn put_number(line: &mut LineWriter, name: &[u8], number: u64) -> Result<(), AllocError>
    ensures { OnOk result (line.new ≡ with_words line.old (name.now ∷ decimal number ∷ [])) }
{
    line.word(name)?;
    line.dec(number)
}

// A word, and a word address.
pub(crate) fn put_address(
    line: &mut LineWriter,
    device: Device,
    name: &[u8],
    word: u32,
) -> Result<(), AllocError>
    ensures { OnOk result (line.new ≡ with_words line.old (name.now ∷ word_address_text device word ∷ [])) }
{
    line.word(name)?;
    write_word_address(line, device, word)
}

// The words of a refusal of an assumption file; `None` if memory runs out.
fn put_assumption_fault(line: &mut LineWriter, fault: &AssumeText) -> Result<(), AllocError>
    ensures { OnOk result (AreWritten line.old line.new (assumption_words fault.now)) }
{
    match *fault {
        AssumeText::Malformed(at) => put_two_and_number(line, b"malformed", b"line", u64::from(at)),
        AssumeText::Order(at) => put_two_and_number(line, b"order", b"line", u64::from(at)),
        AssumeText::Memory => Err(AllocError),
    }
}

/// The refusal of an assumption file; `None` if memory runs out.
pub fn assumptions_refused(alloc: Global, fault: &AssumeText) -> Result<Vec<u8>, AllocError>
    ensures { IfOk result (λ v. assumptions_refused fault.now ≡ Some v.items) }
{
    let mut line = LineWriter::new(alloc);
    line.word(b"assumptions")?;
    put_assumption_fault(&mut line, fault)?;
    ended(line)
}

// The word of an exceeded limit.
pub(crate) fn limit_word(limit: Limit) -> &'static [u8]
    ensures { result.now ≡ limit_word limit }
{
    match limit {
        Limit::Nodes => b"nodes",
        Limit::Cells => b"cells",
    }
}

// The words of a refusal of a certificate's text; `None` if memory runs out.
fn put_certificate_fault(line: &mut LineWriter, fault: &CertFault) -> Result<(), AllocError>
    ensures { OnOk result (AreWritten line.old line.new (certificate_words fault.now)) }
{
    match *fault {
        CertFault::Malformed(at) => put_two_and_number(line, b"malformed", b"at", at as u64),
        CertFault::Order(at) => put_two_and_number(line, b"order", b"at", at as u64),
        CertFault::Limit(limit) => put_two(line, b"limit", limit_word(limit)),
        CertFault::Other(device) => put_two(line, b"device", class_of(device)),
        CertFault::Memory => Err(AllocError),
    }
}

/// The refusal of a certificate's text; `None` if memory runs out.
pub fn certificate_refused(alloc: Global, fault: &CertFault) -> Result<Vec<u8>, AllocError>
    ensures { IfOk result (λ v. certificate_refused fault.now ≡ Some v.items) }
{
    let mut line = LineWriter::new(alloc);
    line.word(b"certificate")?;
    put_certificate_fault(&mut line, fault)?;
    ended(line)
}

// A line of three words and a number.
fn three_words_and_number(
    alloc: Global,
    first: &[u8],
    second: &[u8],
    third: &[u8],
    number: u64,
) -> Result<Vec<u8>, AllocError>
    ensures { IfOk result (λ v. v.items ≡ told (first.now ∷ second.now ∷ third.now ∷ decimal number ∷ [])) }
{
    let mut line = LineWriter::new(alloc);
    put_two(&mut line, first, second)?;
    put_number(&mut line, third, number)?;
    ended(line)
}

/// The line for a malformed schedule, with the offset of its line.
pub fn schedule_malformed(alloc: Global, at: usize) -> Result<Vec<u8>, AllocError>
    ensures { IfOk result (λ v. v.items ≡ schedule_malformed at) }
{
    three_words_and_number(alloc, b"schedule", b"malformed", b"at", at as u64)
}

/// The line for an illegal choice of a schedule, with its number.
pub fn schedule_illegal(alloc: Global, step: u32) -> Result<Vec<u8>, AllocError>
    ensures { IfOk result (λ v. v.items ≡ schedule_illegal step) }
{
    three_words_and_number(alloc, b"schedule", b"illegal", b"step", u64::from(step))
}

/// The refusal of a text of peripherals; `None` if memory runs out.
pub fn peripherals_refused(alloc: Global, fault: &PeripheralsFault) -> Result<Vec<u8>, AllocError>
    ensures { IfOk result (λ v. peripherals_refused fault.now ≡ Some v.items) }
{
    match *fault {
        PeripheralsFault::Malformed(at) => {
            three_words_and_number(alloc, b"devices", b"malformed", b"at", at as u64)
        }
        PeripheralsFault::Memory => Err(AllocError),
    }
}

// Whether a schedule of the certificate attains its bound.
fn witness_word(attained: bool) -> &'static [u8]
    ensures { result.now ≡ witness_word attained }
{
    if attained { b"attained" } else { b"open" }
}

/// The line of an accepted certificate: its bound, and whether a schedule attains it.
pub fn accepted(alloc: Global, bound: u16, attained: bool) -> Result<Vec<u8>, AllocError>
    ensures { IfOk result (λ v. v.items ≡ accepted bound attained) }
{
    let mut line = LineWriter::new(alloc);
    put_two_and_number(&mut line, b"accepted", b"bound", u64::from(bound))?;
    line.word(witness_word(attained))?;
    ended(line)
}

// An instance's number, a word and a number.
fn put_inst(
    line: &mut LineWriter,
    reason: &[u8],
    at: u32,
    word: &[u8],
    number: u32,
) -> Result<(), AllocError>
    ensures { OnOk result (line.new ≡ with_words line.old (reason.now ∷ inst_told at word.now number)) }
{
    put_two_and_number(line, reason, b"inst", u64::from(at))?;
    put_number(line, word, u64::from(number))
}

// The words after `rejected`, the reason's number first.
fn put_reason(
    alloc: Global,
    line: &mut LineWriter,
    device: Device,
    reason: &Reason,
) -> Result<(), AllocError>
    ensures { OnOk result (line.new ≡ with_words line.old (reason_words device reason.now)) }
{
    match *reason {
        Reason::Root => put_two(line, b"1", b"root"),
        Reason::Node(at, cause) => {
            put_two_and_number(line, b"2", b"node", u64::from(at))?;
            put_number(line, b"cause", u64::from(cause))
        }
        Reason::Edge(at, key) => {
            put_two_and_number(line, b"3", b"node", u64::from(at))?;
            line.word(b"to")?;
            write_key(line, alloc, device, &key)
        }
        Reason::Rank(at, entered) => put_inst(line, b"4", at, b"inst", entered),
        Reason::Need(at, least) => put_inst(line, b"5", at, b"least", least),
        Reason::Bound(least) => put_two_and_number(line, b"6", b"least", u64::from(least)),
        Reason::Assumptions => put_two(line, b"7", b"assumptions"),
        Reason::Expansion(at) => put_two_and_number(line, b"9", b"node", u64::from(at)),
        Reason::Device => put_two(line, b"10", b"device"),
    }
}

/// The line of a rejected certificate, with the enable bits of a node as many digits as the device has.
pub fn rejected(alloc: Global, device: Device, reason: &Reason) -> Result<Vec<u8>, AllocError>
    ensures { IfOk result (λ v. v.items ≡ rejected device reason.now) }
{
    let mut line = LineWriter::new(alloc);
    line.word(b"rejected")?;
    put_reason(alloc, &mut line, device, reason)?;
    ended(line)
}

/// The line of a certificate whose schedule does not attain its bound.
pub fn witness_rejected(alloc: Global) -> Result<Vec<u8>, AllocError>
    ensures { IfOk result (λ v. v.items ≡ witness_rejected) }
{
    three_words(alloc, b"rejected", b"8", b"witness")
}

// A word, a word address and a data address.
fn put_write(
    line: &mut LineWriter,
    device: Device,
    name: &[u8],
    pc: u32,
    address: u16,
) -> Result<(), AllocError>
    ensures { OnOk result (line.new ≡ with_words line.old (write_words device name.now pc address)) }
{
    put_address(line, device, name, pc)?;
    line.hex(u32::from(address), 4)
}

// How a run ended.
fn put_stop(line: &mut LineWriter, device: Device, stop: Stop) -> Result<(), AllocError>
    ensures { OnOk result (line.new ≡ with_words line.old (stop_words device stop)) }
{
    match stop {
        Stop::End => line.word(b"end"),
        Stop::Flag(Flag::Live(pc, address)) => put_write(line, device, b"live", pc, address),
        Stop::Flag(Flag::Protected(pc, address)) => {
            put_write(line, device, b"protected", pc, address)
        }
        Stop::Flag(Flag::Transfer(pc, target)) => {
            put_address(line, device, b"transfer", pc)?;
            write_word_address(line, device, target)
        }
        Stop::Flag(Flag::Moved(pc)) => put_address(line, device, b"moved", pc),
        Stop::Undefined(pc) => put_address(line, device, b"undefined", pc),
        Stop::Overflow(pc) => put_address(line, device, b"overflow", pc),
    }
}

/// The line of a replay on a device.
pub fn run_text(alloc: Global, device: Device, report: &ReplayReport) -> Result<Vec<u8>, AllocError>
    ensures { IfOk result (λ v. v.items ≡ run_text device (report_of report.now)) }
{
    let mut line = LineWriter::new(alloc);
    put_number(&mut line, b"steps", u64::from(report.steps))?;
    put_number(&mut line, b"depth", u64::from(report.depth))?;
    line.word(b"stop")?;
    put_stop(&mut line, device, report.stop)?;
    ended(line)
}
