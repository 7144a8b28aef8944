//! The words of keys.

ghost use Rattle.std.specs.Prelude.{◌≡◌, ◌++◌, OnOk, decimal};
ghost use Rattle.text_base.specs.Digits.{hex_digits};
ghost use Rattle.text_base.specs.Writing.{with_word, with_words};
ghost use Rattle.witness_replay.specs.Spelling.{bit};
ghost use Rattle.cert_words.specs.Spelling.{form_word};
ghost use Rattle.cert_words.specs.KeySpelling.{masks_digits, kind_word, inst_key_words, pick_words, point_words, node_key_words};

use assumption_files::write_word_address;
use avr_model::device::Device;
use cert_words::masks_digits;
use certificate::{Form, Version};
use node_keys::{High, InstKey, Kind, NodeKey, SpForm};
use pair_words::{four_digits, two_digits};
use std::alloc::{AllocError, Global};
use text_base::{LineWriter, hex_glyphs};
use vector_table::Masks;

// Writes 0 or 1.
fn write_bit(out: &mut LineWriter, set: bool) -> Result<(), AllocError>
    ensures { OnOk result (out.new ≡ with_word out.old (bit set)) }
{
    out.word(if set { b"1" } else { b"0" })
}

// Appends a number in decimal.
fn append_decimal(word: &mut Vec<u8>, alloc: Global, number: u64) -> Result<(), AllocError>
    ensures { OnOk result (word.new.items ≡ word.old.items ++ decimal number) }
{
    let digits = number.to_string(alloc)?;
    word.extend_from_slice(digits.as_bytes())
}

// Writes enable bits.
fn write_masks(out: &mut LineWriter, device: Device, masks: Masks) -> Result<(), AllocError>
    ensures { OnOk result (out.new ≡ with_word out.old (hex_digits masks (masks_digits device))) }
{
    let digits = masks_digits(device);
    let glyphs = hex_glyphs(masks.bits(), digits);
    out.word(&glyphs[..digits])
}

// Writes a kind.
fn write_kind(out: &mut LineWriter, alloc: Global, kind: Kind) -> Result<(), AllocError>
    ensures { OnOk result (out.new ≡ with_word out.old (kind_word kind)) }
{
    match kind {
        Kind::Root => out.word(b"root"),
        Kind::Call => out.word(b"call"),
        Kind::Vector(vector) => {
            let mut word = Vec::new(alloc);
            word.push(b'v')?;
            append_decimal(&mut word, alloc, u64::from(vector))?;
            out.word(&word)
        }
    }
}

// Writes a form of the stack pointer.
fn write_form(out: &mut LineWriter, alloc: Global, form: &SpForm) -> Result<(), AllocError>
    ensures { OnOk result (out.new ≡ with_word out.old (form_word form.now)) }
{
    let mut word = Vec::new(alloc);
    match *form {
        SpForm::Closed(offset) => {
            word.push(b'c')?;
            append_decimal(&mut word, alloc, u64::from(offset))?;
        }
        SpForm::Open(offset, high) => {
            word.push(b'o')?;
            append_decimal(&mut word, alloc, u64::from(offset))?;
            match high {
                High::Known(byte) => {
                    let b = two_digits(byte);
                    word.extend_from_slice(&[b',', b'k', b.0, b.1])?;
                }
                High::Tag(below) => {
                    let n = four_digits(below);
                    word.extend_from_slice(&[b',', b't', n.0, n.1, n.2, n.3])?;
                }
            }
        }
    }
    out.word(&word)
}

/// Writes an instance for the device: kind, entry, enable bits and I. If memory runs out, a prefix of the words was written.
pub fn write_inst_key(
    out: &mut LineWriter,
    alloc: Global,
    device: Device,
    key: &InstKey,
) -> Result<(), AllocError>
    ensures { OnOk result (out.new ≡ with_words out.old (inst_key_words device key.now)) }
{
    write_kind(out, alloc, key.kind)?;
    write_word_address(out, device, key.entry)?;
    write_masks(out, device, key.masks)?;
    write_bit(out, key.i)
}

// Writes a pick, which the first version has no word for.
fn write_pick(out: &mut LineWriter, version: Version, pick: Option<u8>) -> Result<(), AllocError>
    ensures { OnOk result (out.new ≡ with_words out.old (pick_words version pick)) }
{
    match version {
        Version::One => Ok(()),
        Version::Two | Version::Three => match pick {
            None => out.word(b"-"),
            Some(byte) => out.hex(u32::from(byte), 2),
        },
    }
}

// Writes a node within its instance: word, enable bits, I, delay, form of the stack pointer and, except in the first version, pick.
pub(crate) fn write_point(
    out: &mut LineWriter,
    alloc: Global,
    form: Form,
    key: &NodeKey,
) -> Result<(), AllocError>
    ensures { OnOk result (out.new ≡ with_words out.old (point_words form.device form.version key.now)) }
{
    write_word_address(out, form.device, key.pc)?;
    write_masks(out, form.device, key.masks)?;
    write_bit(out, key.i)?;
    write_bit(out, key.delay)?;
    write_form(out, alloc, &key.sp)?;
    write_pick(out, form.version, key.pick)
}

/// Writes a node with its instance for the device: kind, entry, enable bits and I of the instance, then word, enable bits, I, delay, form
/// of the stack pointer and pick. If memory runs out, a prefix of the words was written.
pub fn write_key(
    out: &mut LineWriter,
    alloc: Global,
    device: Device,
    key: &NodeKey,
) -> Result<(), AllocError>
    ensures { OnOk result (out.new ≡ with_words out.old (node_key_words device key.now)) }
{
    write_inst_key(out, alloc, device, &key.inst)?;
    let form = Form {
        device,
        version: Version::Two,
    };
    write_point(out, alloc, form, key)
}
