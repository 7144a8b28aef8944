//! The lines printed if there is no certificate, and the line of `demo`.

ghost use Rattle.std.specs.Prelude.{◌≡◌, [], ◌∷◌, IfOk, OnOk, Some, codes};
ghost use Rattle.text_base.specs.Digits.{hex_digits};
ghost use Rattle.text_base.specs.Writing.{with_words};
ghost use Rattle.replies.specs.Texts.{AreWritten, instruction_told, limit_word, fault_words, why_not_words, why_not_text, demo_text, refused_words};

use crate::texts::{ended, limit_word, put_address, put_number, put_two, put_two_and_number};
use avr_decode::text as instruction_text;
use avr_model::device::Device;
use certificate::Certificate;
use flash_image::Flash;
use local_rules::NodeFault;
use round_rules::Refusal;
use std::alloc::{AllocError, Global};
use text_base::LineWriter;

// The text of the instruction at a word, or the word in digits if it is none on the device.
pub(crate) fn put_instruction(
    alloc: Global,
    line: &mut LineWriter,
    flash: &Flash,
    at: u32,
) -> Result<(), AllocError>
    ensures { OnOk result (line.new ≡ with_words line.old (instruction_told flash.now at)) }
{
    match flash.instruction(at) {
        Some(instr) => {
            let text = instruction_text(alloc, flash.device(), &instr, at)?;
            line.word(&text)
        }
        None => put_opcode(line, flash.word(at)),
    }
}

// A word of flash in digits.
fn put_opcode(line: &mut LineWriter, word: u16) -> Result<(), AllocError>
    ensures { OnOk result (line.new ≡ with_words line.old (codes "opcode" ∷ hex_digits word 4 ∷ [])) }
{
    line.word(b"opcode")?;
    line.hex(u32::from(word), 4)
}

// A cause, and its word.
fn put_cause(
    line: &mut LineWriter,
    device: Device,
    number: u8,
    name: &[u8],
    at: u32,
) -> Result<(), AllocError>
    ensures { OnOk result (line.new ≡ with_words line.old (refused_words device number name.now at)) }
{
    put_number(line, b"refused", u64::from(number))?;
    line.word(name)?;
    put_address(line, device, b"at", at)
}

// The words of a node's fault; `None` if memory runs out.
fn put_fault(
    alloc: Global,
    line: &mut LineWriter,
    flash: &Flash,
    fault: &NodeFault,
) -> Result<(), AllocError>
    ensures { OnOk result (AreWritten line.old line.new (fault_words flash.now fault.now)) }
{
    let number = fault.cause();
    let device = flash.device();
    match *fault {
        NodeFault::UnresolvedJump(at) => {
            put_cause(line, device, number, b"unresolved-jump", at)?;
            put_instruction(alloc, line, flash, at)
        }
        NodeFault::UntrackedSp(at) => {
            put_cause(line, device, number, b"untracked-sp", at)?;
            put_instruction(alloc, line, flash, at)
        }
        NodeFault::Unsupported(at) => {
            put_cause(line, device, number, b"unsupported", at)?;
            put_opcode(line, flash.word(at))
        }
        NodeFault::TooDeep(at, need) => {
            put_cause(line, device, number, b"too-deep", at)?;
            put_number(line, b"need", u64::from(need))
        }
        NodeFault::UnknownPointer(at) => {
            put_cause(line, device, number, b"unknown-pointer", at)?;
            put_instruction(alloc, line, flash, at)
        }
        NodeFault::Memory => Err(AllocError),
    }
}

// The words of a refusal; `None` if memory runs out.
fn put_why_not(
    alloc: Global,
    line: &mut LineWriter,
    flash: &Flash,
    refusal: &Refusal,
) -> Result<(), AllocError>
    ensures { OnOk result (AreWritten line.old line.new (why_not_words flash.now refusal.now)) }
{
    match *refusal {
        Refusal::Misfit(at) => put_number(line, b"entry", u64::from(at)),
        Refusal::Node(fault) => put_fault(alloc, line, flash, &fault),
        Refusal::Recursion(at) => put_cause(line, flash.device(), 2, b"recursion", at),
        Refusal::ReEntry(vector, at) => {
            put_two(line, b"refused", b"3")?;
            put_two_and_number(line, b"re-entry", b"of", u64::from(vector))?;
            put_address(line, flash.device(), b"at", at)
        }
        Refusal::TooLarge(limit) => {
            put_two(line, b"refused", b"7")?;
            put_two(line, b"too-large", limit_word(limit))
        }
        Refusal::Spent(steps) => put_number(line, b"spent", steps),
        Refusal::Memory => Err(AllocError),
    }
}

/// The line printed if there is no certificate: the assumption that does not fit the device, the cause, or the number of rounds that do not
/// suffice; `None` if memory runs out.
pub fn why_not(alloc: Global, flash: &Flash, refusal: &Refusal) -> Result<Vec<u8>, AllocError>
    ensures { IfOk result (λ v. why_not_text flash.now refusal.now ≡ Some v.items) }
{
    let mut line = LineWriter::new(alloc);
    put_why_not(alloc, &mut line, flash, refusal)?;
    ended(line)
}

/// The size of an image, the nodes and instances of its certificate, and the bound.
pub fn demo_text(alloc: Global, size: u32, certificate: &Certificate) -> Result<Vec<u8>, AllocError>
    ensures { IfOk result (λ v. v.items ≡ demo_text size certificate.now) }
{
    let mut line = LineWriter::new(alloc);
    put_number(&mut line, b"demo", u64::from(size))?;
    put_number(&mut line, b"nodes", certificate.nodes().len() as u64)?;
    let instances = certificate.count_instances() as u64;
    put_number(&mut line, b"instances", instances)?;
    put_number(&mut line, b"bound", u64::from(certificate.bound()))?;
    ended(line)
}
