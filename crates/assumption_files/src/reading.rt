//! The reader of assumption lists.

ghost use Rattle.std.specs.Prelude.{◌≡◌, List, Result, true, Some, None, IfSome, IfOk, length, ◌&&◌, nat_le};
ghost use Rattle.std.specs.Option.{option_map};
ghost use Rattle.avr_model.specs.Devices.{depth_of, word_digits};
ghost use Rattle.avr_model.specs.declared.assumption.Entry.{Entry};
ghost use Rattle.avr_model.specs.declared.assumption.Entry.TheVariants as entry;
ghost use Rattle.text_base.specs.Answers.{Answers};
ghost use Rattle.text_base.specs.Lines.{words_of};
ghost use Rattle.vector_table.specs.Entries.{ascends};
ghost use Rattle.assumption_files.specs.declared.fault.AssumeText.{AssumeText};
ghost use Rattle.assumption_files.specs.declared.fault.AssumeText.TheVariants as fault;
ghost use Rattle.assumption_files.specs.Exact.{IsListDue, IsListDueUnlessMemory};
ghost use Rattle.assumption_files.specs.Reading.{numbers_in, listed_in, depth_in, bare_in, alone_by, numbered_in, is_entry_of, entry_in, with_line, entries_in};

use crate::fault::AssumeText;
use crate::laws::reading_is_exact;
use crate::word_addresses::{word_address_of, word_digits};
use avr_model::assumption::Entry;
use avr_model::device::Device;
use avr_model::listed::Listed;
use line_reading::{dec_word, is_over};
use std::alloc::{AllocError, Global};
use text_base::{LineReader, Words, read_hex};
use vector_table::{AssumeFault, Assumptions, are_all_protected, are_all_words, is_word};

/// The most entries of a list.
pub const MOST_ENTRIES: usize = 4_096;

// The most items of an entry.
const MOST_ITEMS: usize = 64;

// The greatest depth of some device.
const MOST_DEPTH: u64 = 32_768;

// The numbers of all remaining words, each a word address in texts of the device. None if a word is no such number.
#[tactic(auto, using(crate::proofs::Numbers::five_fit, crate::proofs::Numbers::numbers_more, crate::proofs::Numbers::no_number, crate::proofs::Numbers::numbers_end))]
fn targets_of(
    alloc: Global,
    device: Device,
    words: &mut Words<'_>,
) -> Result<Option<Vec<u32>>, AllocError>
    ensures { IfOk result (λ o. option_map (λ v. v.items) o ≡ numbers_in (word_digits device) words.old) }
{
    let digits = word_digits(device);
    let mut numbers = Vec::new(alloc);
    while let Some(word) = words.next() {
        match read_hex(word, digits) {
            Ok(number) => numbers.push(number as u32)?,
            Err(_) => return Ok(None),
        }
    }
    Ok(Some(numbers))
}

// The numbers of all remaining words, each of four digits. None if a word is no such number.
#[tactic(auto, using(crate::proofs::Numbers::numbers_more, crate::proofs::Numbers::no_number, crate::proofs::Numbers::numbers_end))]
fn addresses_of(alloc: Global, words: &mut Words<'_>) -> Result<Option<Vec<u16>>, AllocError>
    ensures { IfOk result (λ o. option_map (λ v. v.items) o ≡ numbers_in 4 words.old) }
{
    let mut numbers = Vec::new(alloc);
    while let Some(word) = words.next() {
        match read_hex(word, 4) {
            Ok(number) => numbers.push(number as u16)?,
            Err(_) => return Ok(None),
        }
    }
    Ok(Some(numbers))
}

// The words after `jump`.
fn jump_of(
    alloc: Global,
    device: Device,
    words: &mut Words<'_>,
) -> Result<Option<Entry>, AllocError>
    ensures { IfOk result (λ o. o ≡ option_map (λ l. entry.Jump l.0 l.1) (listed_in device (word_digits device) words.old)) }
{
    let Some(site) = word_address_of(device, words) else {
        return Ok(None);
    };
    match targets_of(alloc, device, words)? {
        Some(words) => Ok(Some(Entry::Jump(site, Listed::new(words)))),
        None => Ok(None),
    }
}

// The words after `store`.
fn store_of(
    alloc: Global,
    device: Device,
    words: &mut Words<'_>,
) -> Result<Option<Entry>, AllocError>
    ensures { IfOk result (λ o. o ≡ option_map (λ l. entry.Store l.0 l.1) (listed_in device 4 words.old)) }
{
    let Some(site) = word_address_of(device, words) else {
        return Ok(None);
    };
    match addresses_of(alloc, words)? {
        Some(addresses) => Ok(Some(Entry::Store(site, Listed::new(addresses)))),
        None => Ok(None),
    }
}

// The word and the depth after `recur`.
fn depth_of(device: Device, words: &mut Words<'_>) -> Option<Entry>
    ensures { result ≡ option_map (λ l. entry.Recur l.0 l.1) (depth_in device words.old) }
{
    let word = word_address_of(device, words)?;
    let depth = dec_word(words, MOST_DEPTH)?;
    if is_over(words) {
        Some(Entry::Recur(word, depth as u16))
    } else {
        None
    }
}

// The entry, if no word follows its kind.
fn bare_of(entry: Entry, words: &mut Words<'_>) -> Option<Entry>
    ensures { result ≡ bare_in entry words.old }
{
    if is_over(words) { Some(entry) } else { None }
}

// The entry of a kind with a site and nothing else.
#[tactic(auto, unfolding(crate::specs::Reading::alone_by))]
fn alone_by(device: Device, kind: &[u8], words: &mut Words<'_>) -> Option<Entry>
    ensures { result ≡ alone_by device kind.now words.old }
{
    let site = word_address_of(device, words)?;
    if !is_over(words) {
        return None;
    }
    if kind == b"prove".as_slice() {
        Some(Entry::Prove(site))
    } else if kind == b"free".as_slice() {
        Some(Entry::Free(site))
    } else if kind == b"never".as_slice() {
        Some(Entry::Never(site))
    } else if kind == b"frame".as_slice() {
        Some(Entry::Frame(site))
    } else if kind == b"scratch".as_slice() {
        Some(Entry::Scratch(site))
    } else {
        None
    }
}

// The entry of a line's text, whatever its numbers.
#[tactic(auto, unfolding(crate::specs::Reading::numbered_in))]
fn numbered_of(alloc: Global, device: Device, text: &[u8]) -> Result<Option<Entry>, AllocError>
    ensures { IfOk result (λ o. o ≡ numbered_in device (words_of text.now)) }
{
    let mut words = Words::new(text);
    let Some(kind) = words.next() else {
        return Ok(None);
    };
    if kind == b"pairs".as_slice() {
        Ok(bare_of(Entry::Pairs, &mut words))
    } else if kind == b"masks".as_slice() {
        Ok(bare_of(Entry::Masks, &mut words))
    } else if kind == b"jump".as_slice() {
        jump_of(alloc, device, &mut words)
    } else if kind == b"store".as_slice() {
        store_of(alloc, device, &mut words)
    } else if kind == b"recur".as_slice() {
        Ok(depth_of(device, &mut words))
    } else {
        Ok(alone_by(device, kind, &mut words))
    }
}

// Whether each word address is below the next.
fn words_ascend(items: &[u32]) -> bool
    ensures { result ≡ ascends items.now }
{
    items.is_sorted_by(|item, next| item < next)
}

// Whether each data address is below the next.
fn addresses_ascend(items: &[u16]) -> bool
    ensures { result ≡ ascends items.now }
{
    items.is_sorted_by(|item, next| item < next)
}

// Whether these are 1 to 64 strictly ascending word addresses.
fn are_words(items: &[u32]) -> bool
    ensures { result ≡ (nat_le 1 (length items.now) && nat_le (length items.now) 64 && ascends items.now) }
{
    !items.is_empty() && items.len() <= MOST_ITEMS && words_ascend(items)
}

// Whether these are 1 to 64 strictly ascending data addresses.
fn are_addresses(items: &[u16]) -> bool
    ensures { result ≡ (nat_le 1 (length items.now) && nat_le (length items.now) 64 && ascends items.now) }
{
    !items.is_empty() && items.len() <= MOST_ITEMS && addresses_ascend(items)
}

// Whether a depth is one of the device's texts.
fn is_depth(device: Device, depth: u16) -> bool
    ensures { result ≡ nat_le depth (depth_of device) }
{
    depth <= device.depth()
}

// Whether an assumption list of the device may have the entry.
fn is_entry(device: Device, entry: &Entry) -> bool
    ensures { result ≡ is_entry_of device entry.now }
{
    match entry {
        Entry::Pairs | Entry::Masks => true,
        Entry::Jump(site, words) => {
            let words = words.as_slice();
            is_word(device, *site) && are_words(words) && are_all_words(device, words)
        }
        Entry::Store(site, addresses) => {
            let addresses = addresses.as_slice();
            is_word(device, *site)
                && are_addresses(addresses)
                && are_all_protected(device, addresses)
        }
        Entry::Recur(word, depth) => is_word(device, *word) && is_depth(device, *depth),
        Entry::Prove(site)
        | Entry::Free(site)
        | Entry::Never(site)
        | Entry::Frame(site)
        | Entry::Scratch(site) => is_word(device, *site),
    }
}

/// The entry of the device whose line, without the line feed, is this text. None exactly if no entry has this line.
#[tactic(auto, unfolding(crate::specs::Reading::entry_in))]
pub fn entry_of(alloc: Global, device: Device, text: &[u8]) -> Result<Option<Entry>, AllocError>
    ensures exact { IfOk result (λ o. o ≡ entry_in device (words_of text.now)) }
    ensures formed { IfOk result (λ o. IfSome o (λ e. is_entry_of device e ≡ true)) }
{
    let Some(entry) = numbered_of(alloc, device, text)? else {
        return Ok(None);
    };
    if is_entry(device, &entry) {
        Ok(Some(entry))
    } else {
        Ok(None)
    }
}

// Reads the line after those of this list.
#[tactic(auto, unfolding(crate::specs::Reading::with_line, crate::specs::Reading::next_by))]
fn read_line(
    alloc: Global,
    device: Device,
    list: &mut Assumptions,
    text: &[u8],
    whole: bool,
) -> Result<(), AssumeText>
    ensures { Answers (λ u. list.new) fault.Memory result (with_line device list.old (record { text = text.now; whole = whole })) }
{
    let before = list.entries().len();
    let number = before as u32 + 1;
    if before >= MOST_ENTRIES || !whole {
        return Err(AssumeText::Malformed(number));
    }
    let Some(entry) = entry_of(alloc, device, text)? else {
        return Err(AssumeText::Malformed(number));
    };
    match list.push(entry) {
        Ok(()) => Ok(()),
        Err(AssumeFault::Order) => Err(AssumeText::Order(number)),
        Err(AssumeFault::Memory) => Err(AssumeText::Memory),
    }
}

// Reads all lines.
fn read_lines(alloc: Global, device: Device, text: &[u8]) -> Result<Assumptions, AssumeText>
    ensures { Answers (λ a. a) fault.Memory result (entries_in device text.now) }
{
    let mut list = Assumptions::empty(alloc);
    let mut reader = LineReader::new(text);
    while let Some(line) = reader.next() {
        read_line(alloc, device, &mut list, line.text, line.whole)?;
    }
    Ok(list)
}

/// Reads an assumption list of a device. The inverse of `write`.
///
/// The text has a line for each entry: `pairs`, `masks`, `jump SITE WORD ...`, `store SITE ADDRESS ...`, `prove SITE`, `free SITE`,
/// `never SITE`, `frame SITE`, `recur WORD DEPTH` or `scratch SITE`, with word addresses of the device in four upper-case hexadecimal
/// digits, or five if it has more than 65,536 words, protected addresses in four, a decimal depth of at most 2,048 bytes or as many as the
/// device's SRAM has, single spaces, and a line feed after each line. A text of no list is refused at the first line with which no list continues: as `Malformed` if that line has the
/// wrong form or is line 4,097, else as `Order`. Source: own.
pub fn read(alloc: Global, device: Device, text: &[u8]) -> Result<Assumptions, AssumeText>
    ensures exact { Answers (λ a. a) fault.Memory result (entries_in device text.now) }
    ensures told { IsListDueUnlessMemory device text.now result }
    ensures due { (due : Result (List Entry) AssumeText) → IsListDue device text.now due → Answers (λ a. a) fault.Memory result due }
{
    reading_is_exact();
    read_lines(alloc, device, text)
}
