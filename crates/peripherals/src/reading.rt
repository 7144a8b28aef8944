//! The parser of texts of peripherals.

ghost use Rattle.std.specs.Prelude.{◌≡◌, ◌≤◌, ◌<◌, [], length, IfOk, IfSome};
ghost use Rattle.std.specs.Option.{option_map};
ghost use Rattle.text_base.specs.Answers.{Answers};
ghost use Rattle.text_base.specs.Lines.{words_of};
ghost use Rattle.peripherals.specs.declared.peripherals.PeripheralsFault.TheVariants as fault;
ghost use Rattle.peripherals.specs.Reading.{times_at, bytes_in, timer_in, receiver_by, receiver_in, source_in, part_by, part_read, sources_read, malformed, setup_at, setup_in};

use crate::peripherals::{Peripherals, PeripheralsFault, Source, SourceKind};
use avr_model::device::Device;
use avr_model::listed::Listed;
use line_reading::{dec_word, is_over, peek_text, take_line, take_text};
use std::alloc::{AllocError, Global};
use text_base::{LineReader, Words, read_hex};
use witness_replay::read_fill;

// The greatest number of lines of sources.
const MOST_SOURCES: u32 = 32;

// The greatest number of bytes of a receiver.
const MOST_BYTES: usize = 64;

// The greatest first step and the greatest period.
const MOST_STEPS: u64 = 16_777_216;

// The timing of a source: its vector, first step and period.
#[derive(Clone, Copy)]
struct Times {
    vector: u8,
    first: u32,
    period: u32,
}

// The three numbers after a source's kind.
#[tactic(auto, unfolding(crate::specs::Reading::times_at))]
fn times_of(device: Device, words: &mut Words<'_>) -> Option<Times>
    ensures { option_map (λ t. (t, words.new)) result ≡ times_at device words.old }
{
    let vector = dec_word(words, u64::from(device.last_vector()))?;
    let first = dec_word(words, MOST_STEPS)?;
    let period = dec_word(words, MOST_STEPS)?;
    if vector >= 2 && period >= 1 {
        Some(Times {
            vector: vector as u8,
            first: first as u32,
            period: period as u32,
        })
    } else {
        None
    }
}

// The bytes of all words that are left, in two digits each; `None` if a word is no such byte.
#[tactic(auto, using(crate::proofs::Bytes::bytes_more, crate::proofs::Bytes::no_byte, crate::proofs::Bytes::bytes_end))]
fn bytes_of(alloc: Global, words: &mut Words<'_>) -> Result<Option<Vec<u8>>, AllocError>
    ensures { IfOk result (λ o. option_map (λ v. v.items) o ≡ bytes_in words.old) }
{
    let mut bytes = Vec::new(alloc);
    while let Some(word) = words.next() {
        match read_hex(word, 2) {
            Ok(number) => bytes.push(number as u8)?,
            Err(_) => return Ok(None),
        }
    }
    Ok(Some(bytes))
}

// Parses the words after `timer`.
fn timer_of(device: Device, words: &mut Words<'_>) -> Option<Source>
    ensures { result ≡ timer_in device words.old }
{
    let times = times_of(device, words)?;
    if is_over(words) {
        Some(source(times, SourceKind::Timer))
    } else {
        None
    }
}

// Makes the source with this timing and these bytes, of which there are 1 to 64.
fn receiver_by(times: Times, bytes: Vec<u8>) -> Option<Source>
    ensures { result ≡ receiver_by times bytes.items }
{
    if bytes.is_empty() || bytes.len() > MOST_BYTES {
        None
    } else {
        Some(source(times, SourceKind::Bytes(Listed::new(bytes))))
    }
}

fn source(times: Times, kind: SourceKind) -> Source
    ensures { result ≡ record { vector = times.vector; first = times.first; period = times.period; kind = kind } }
{
    Source {
        vector: times.vector,
        first: times.first,
        period: times.period,
        kind,
    }
}

// Parses the words after `bytes`.
fn receiver_of(
    alloc: Global,
    device: Device,
    words: &mut Words<'_>,
) -> Result<Option<Source>, AllocError>
    ensures { IfOk result (λ o. o ≡ receiver_in device words.old) }
{
    let Some(times) = times_of(device, words) else {
        return Ok(None);
    };
    match bytes_of(alloc, words) {
        Ok(Some(bytes)) => Ok(receiver_by(times, bytes)),
        Ok(None) => Ok(None),
        Err(fault) => Err(fault),
    }
}

// Parses the source of a line.
#[tactic(auto, unfolding(crate::specs::Reading::source_in))]
fn source_of(alloc: Global, device: Device, text: &[u8]) -> Result<Option<Source>, AllocError>
    ensures { IfOk result (λ o. o ≡ source_in device (words_of text.now)) }
{
    let mut words = Words::new(text);
    let Some(kind) = words.next() else {
        return Ok(None);
    };
    if kind == b"timer".as_slice() {
        Ok(timer_of(device, &mut words))
    } else if kind == b"bytes".as_slice() {
        receiver_of(alloc, device, &mut words)
    } else {
        Ok(None)
    }
}

// Parses a line: a source, or none for `end`. This many lines are left for sources.
#[tactic(auto, unfolding(crate::specs::Reading::part_by))]
fn part_of(
    alloc: Global,
    device: Device,
    text: &[u8],
    left: u32,
) -> Result<Option<Option<Source>>, AllocError>
    ensures exact { IfOk result (λ o. o ≡ part_by device left text.now) }
    ensures room { IfOk result (λ o. IfSome o (λ p. IfSome p (λ s. 1 ≤ left))) }
{
    if text == b"end".as_slice() {
        return Ok(Some(None));
    }
    if left == 0 {
        return Ok(None);
    }
    match source_of(alloc, device, text) {
        Ok(Some(source)) => Ok(Some(Some(source))),
        Ok(None) => Ok(None),
        Err(fault) => Err(fault),
    }
}

// Reads a source, or none if the line is `end`.
#[tactic(auto, unfolding(line_reading::specs::Reading::line_by))]
fn read_part(
    alloc: Global,
    device: Device,
    reader: &mut LineReader<'_>,
    left: u32,
) -> Result<Option<Source>, PeripheralsFault>
    ensures exact { Answers (λ o. (o, reader.new)) fault.Memory result (part_read device left reader.old) }
    ensures room { IfOk result (λ o. IfSome o (λ s. 1 ≤ left)) }
    ensures shorter { IfOk result (λ _. length reader.new.rest < length reader.old.rest) }
{
    let Some(text) = peek_text(reader) else {
        return Err(PeripheralsFault::Malformed(reader.offset()));
    };
    match part_of(alloc, device, text, left) {
        Ok(found) => match take_line(reader, found) {
            Ok(part) => Ok(part),
            Err(fault) => Err(PeripheralsFault::Malformed(fault.0)),
        },
        Err(_) => Err(PeripheralsFault::Memory),
    }
}

// Reads the lines up to `end` into an empty list. The list is borrowed, so that no exit of the function has to drop it.
#[tactic(auto, using(crate::proofs::Loop::front_step, crate::proofs::Loop::front_end, crate::proofs::Loop::front_fault))]
fn read_sources(
    alloc: Global,
    device: Device,
    reader: &mut LineReader<'_>,
    sources: &mut Vec<Source>,
) -> Result<(), PeripheralsFault>
    requires { sources.old.items ≡ [] }
    ensures { Answers (λ _. (sources.new.items, reader.new)) fault.Memory result (sources_read device reader.old) }
{
    let mut left = MOST_SOURCES;
    while let Some(source) = read_part(alloc, device, reader, left)? {
        if sources.push(source).is_err() {
            return Err(PeripheralsFault::Memory);
        }
        left -= 1;
    }
    Ok(())
}

// Reads the lines of a setup, after which nothing may follow.
#[tactic(auto, unfolding(crate::specs::Reading::setup_at))]
fn read_lines(
    alloc: Global,
    device: Device,
    reader: &mut LineReader<'_>,
) -> Result<Peripherals, PeripheralsFault>
    ensures { Answers (λ d. d) fault.Memory result (malformed (setup_at device reader.old)) }
{
    take_text(reader, b"devices 1")?;
    let fill = read_fill(reader)?;
    let mut sources = Vec::new(alloc);
    let told = match read_sources(alloc, device, reader, &mut sources) {
        Ok(()) => match reader.peek() {
            None => Ok(()),
            Some(line) => Err(PeripheralsFault::Malformed(line.at)),
        },
        Err(fault) => Err(fault),
    };
    told.and(Ok(Peripherals::new(fill, sources)))
}

// Reads a whole text.
#[tactic(auto, unfolding(crate::specs::Reading::setup_in))]
pub(crate) fn read_setup(
    alloc: Global,
    device: Device,
    text: &[u8],
) -> Result<Peripherals, PeripheralsFault>
    ensures { Answers (λ d. d) fault.Memory result (setup_in device text.now) }
{
    let mut reader = LineReader::new(text);
    read_lines(alloc, device, &mut reader)
}
