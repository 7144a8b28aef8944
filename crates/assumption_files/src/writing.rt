//! The writer of assumption lists.

ghost use Rattle.std.specs.Prelude.{◌≡◌, ◌∷◌, [], OnOk, OnErr, codes, false};
ghost use Rattle.avr_model.specs.declared.assumption.Entry.TheVariants.{Recur};
ghost use Rattle.text_base.specs.Writing.{with_words};
ghost use Rattle.line_reading.specs.Appending.{with_text, AppendedPart, WroteWords};
ghost use Rattle.avr_model.specs.Devices.{word_digits};
ghost use Rattle.assumption_files.specs.Spelling.{number_words, word_address_text, jump_words, store_words, entry_words, text_of};

use crate::word_addresses::write_word_address;
use avr_model::assumption::Entry;
use avr_model::device::Device;
use line_reading::laws::appending_laws;
use std::alloc::AllocError;
use text_base::LineWriter;
use vector_table::Assumptions;

// Writes word addresses as words.
fn write_targets(out: &mut LineWriter, device: Device, words: &[u32]) -> Result<(), AllocError>
    ensures written { OnOk result (out.new ≡ with_words out.old (number_words (word_digits device) words.now)) }
    ensures refused { OnErr result (WroteWords out.old (number_words (word_digits device) words.now) out.new) }
{
    for word in words {
        write_word_address(out, device, *word)?;
    }
    Ok(())
}

// Writes data addresses as words.
fn write_addresses(out: &mut LineWriter, addresses: &[u16]) -> Result<(), AllocError>
    ensures written { OnOk result (out.new ≡ with_words out.old (number_words 4 addresses.now)) }
    ensures refused { OnErr result (WroteWords out.old (number_words 4 addresses.now) out.new) }
{
    for address in addresses {
        out.hex(u32::from(*address), 4)?;
    }
    Ok(())
}

// Writes the words of a `jump` line.
fn write_jump(
    out: &mut LineWriter,
    device: Device,
    site: u32,
    words: &[u32],
) -> Result<(), AllocError>
    ensures written { OnOk result (out.new ≡ with_words out.old (codes "jump" ∷ jump_words device site words.now)) }
    ensures refused { OnErr result (WroteWords out.old (codes "jump" ∷ jump_words device site words.now) out.new) }
{
    out.word(b"jump")?;
    write_word_address(out, device, site)?;
    write_targets(out, device, words)
}

// Writes the words of a `store` line.
fn write_store(
    out: &mut LineWriter,
    device: Device,
    site: u32,
    addresses: &[u16],
) -> Result<(), AllocError>
    ensures written { OnOk result (out.new ≡ with_words out.old (codes "store" ∷ store_words device site addresses.now)) }
    ensures refused { OnErr result (WroteWords out.old (codes "store" ∷ store_words device site addresses.now) out.new) }
{
    out.word(b"store")?;
    write_word_address(out, device, site)?;
    write_addresses(out, addresses)
}

// Writes a kind and a site.
fn write_site(
    out: &mut LineWriter,
    device: Device,
    kind: &[u8],
    site: u32,
) -> Result<(), AllocError>
    ensures written { OnOk result (out.new ≡ with_words out.old (kind.now ∷ word_address_text device site ∷ [])) }
    ensures refused { OnErr result (WroteWords out.old (kind.now ∷ word_address_text device site ∷ []) out.new) }
{
    out.word(kind)?;
    write_word_address(out, device, site)
}

// Writes the words of a `recur` line: its word and its depth.
fn write_recur(
    out: &mut LineWriter,
    device: Device,
    word: u32,
    depth: u16,
) -> Result<(), AllocError>
    ensures written { OnOk result (out.new ≡ with_words out.old (entry_words device (Recur word depth))) }
    ensures refused { OnErr result (WroteWords out.old (entry_words device (Recur word depth)) out.new) }
{
    out.word(b"recur")?;
    write_word_address(out, device, word)?;
    out.dec(u64::from(depth))
}

// Writes the words of an entry.
fn write_entry(out: &mut LineWriter, device: Device, entry: &Entry) -> Result<(), AllocError>
    ensures written { OnOk result (out.new ≡ with_words out.old (entry_words device entry.now)) }
    ensures refused { OnErr result (WroteWords out.old (entry_words device entry.now) out.new) }
{
    match entry {
        Entry::Pairs => out.word(b"pairs"),
        Entry::Masks => out.word(b"masks"),
        Entry::Jump(site, words) => write_jump(out, device, *site, words.as_slice()),
        Entry::Store(site, addresses) => write_store(out, device, *site, addresses.as_slice()),
        Entry::Prove(site) => write_site(out, device, b"prove", *site),
        Entry::Free(site) => write_site(out, device, b"free", *site),
        Entry::Never(site) => write_site(out, device, b"never", *site),
        Entry::Frame(site) => write_site(out, device, b"frame", *site),
        Entry::Recur(word, depth) => write_recur(out, device, *word, *depth),
        Entry::Scratch(site) => write_site(out, device, b"scratch", *site),
    }
}

/// Appends the lines of the list in a text of the device, at the beginning of a line. If memory runs out, a prefix of them was written.
pub fn write(device: Device, list: &Assumptions, out: &mut LineWriter) -> Result<(), AllocError>
    requires { out.old.begun ≡ false }
    ensures written { OnOk result (out.new ≡ with_text out.old (text_of device list.now)) }
    ensures refused { OnErr result (AppendedPart out.old.bytes (text_of device list.now) out.new.bytes) }
{
    appending_laws();
    let entries = list.entries();
    for entry in entries {
        write_entry(out, device, entry)?;
        out.end_line()?;
    }
    Ok(())
}
