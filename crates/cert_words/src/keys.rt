//! The words of keys.

ghost use Rattle.std.specs.Prelude.{◌≡◌, ◌≤◌, IfSome};
ghost use Rattle.std.specs.Option.{option_map};
ghost use Rattle.avr_model.specs.Devices.{depth_of};
ghost use Rattle.avr_model.specs.Vectors.{is_vector, last_vector};
ghost use Rattle.node_keys.specs.Keys.{offset_of, is_root};
ghost use Rattle.certificate.specs.Insts.{is_vector_word, fits_kind};
ghost use Rattle.cert_words.specs.KeySpelling.{masks_digits};
ghost use Rattle.cert_words.specs.KeyReading.{masks_at, flag_at, kind_in, inst_key_at, pick_at, node_key_at};

use crate::values::sp_form_of;
use assumption_files::word_address_of;
use avr_model::device::Device;
use certificate::{Form, Version, says_device};
use line_reading::{Letters, dec_word, hex_word};
use node_keys::{InstKey, Kind, NodeKey};
use text_base::{Words, read_dec, read_hex};
use vector_table::Masks;

/// The number of hexadecimal digits of the device's enable bits, 1 to 19.
pub fn masks_digits(device: Device) -> usize
    ensures value { result ≡ masks_digits device }
    ensures least { 1 ≤ result }
    ensures most { result ≤ 19 }
{
    (usize::from(device.last_vector()) + 2) / 4
}

// Enable bits of the device.
#[tactic(auto, unfolding(crate::specs::KeyReading::masks_at))]
fn masks_of(device: Device, words: &mut Words<'_>) -> Option<Masks>
    ensures { option_map (λ m. (m, words.new)) result ≡ masks_at device words.old }
{
    let bits = hex_word(words, masks_digits(device))?;
    if bits < 1 << (device.last_vector() - 1) {
        Some(Masks::from_bits(bits))
    } else {
        None
    }
}

// 0 or 1.
fn flag_of(words: &mut Words<'_>) -> Option<bool>
    ensures { option_map (λ b. (b, words.new)) result ≡ flag_at words.old }
{
    let number = dec_word(words, 1)?;
    Some(number == 1)
}

// The kind of a word.
#[tactic(auto, unfolding(crate::specs::KeyReading::kind_in, crate::specs::KeyReading::vector_in))]
fn kind_of(device: Device, word: &[u8]) -> Option<Kind>
    ensures { result ≡ kind_in device word.now }
{
    if word == b"root".as_slice() {
        return Some(Kind::Root);
    }
    if word == b"call".as_slice() {
        return Some(Kind::Call);
    }
    let mut letters = Letters::new(word);
    if letters.next()? != b'v' {
        return None;
    }
    match read_dec(letters.rest(), u64::from(device.last_vector())) {
        Ok(number) => Some(Kind::Vector(number as u8)),
        Err(_) => None,
    }
}

// Whether the vector begins at this word; where the text doesn't say the device, with vectors of two words or of one.
fn is_vector_word(device: Device, vector: u8, entry: u32) -> bool
    requires least { 2 ≤ vector }
    requires most { vector ≤ last_vector device }
    ensures { result ≡ is_vector_word device vector entry }
{
    if says_device(device) {
        entry == device.vector_word(vector)
    } else {
        let before = u32::from(vector) - 1;
        entry == 2 * before || entry == before
    }
}

// Whether an instance of this kind may have this entry, these enable bits and this I.
fn fits_kind(device: Device, kind: Kind, entry: u32, masks: Masks, i: bool) -> bool
    ensures { result ≡ fits_kind device kind entry masks i }
{
    match kind {
        Kind::Root => entry == 0 && masks.bits() == 0 && !i,
        Kind::Call => entry < device.limit(),
        Kind::Vector(v) => v >= 2
            && v <= device.last_vector()
            && is_vector_word(device, v, entry)
            && !i,
    }
}

/// An instance by its next words in a certificate for the device: kind, entry, enable bits and I. None exactly if they are those of no
/// valid instance.
#[tactic(auto, unfolding(crate::specs::KeyReading::inst_key_at))]
pub fn inst_key_of(device: Device, words: &mut Words<'_>) -> Option<InstKey>
    ensures { option_map (λ k. (k, words.new)) result ≡ inst_key_at device words.old }
{
    let kind = kind_of(device, words.next()?)?;
    let (Some(entry), Some(masks), Some(i)) = (
        word_address_of(device, words),
        masks_of(device, words),
        flag_of(words),
    ) else {
        return None;
    };
    if fits_kind(device, kind, entry, masks, i) {
        Some(InstKey {
            kind,
            entry,
            masks,
            i,
        })
    } else {
        None
    }
}

// Whether this is the root's kind.
pub(crate) fn is_root(kind: Kind) -> bool
    ensures { result ≡ is_root kind }
{
    match kind {
        Kind::Root => true,
        Kind::Call => false,
        Kind::Vector(_) => false,
    }
}

// The pick, which the first version has no word for.
#[tactic(auto, unfolding(crate::specs::KeyReading::pick_in))]
fn pick_of(words: &mut Words<'_>, version: Version) -> Option<Option<u8>>
    ensures { option_map (λ p. (p, words.new)) result ≡ pick_at version words.old }
{
    match version {
        Version::One => Some(None),
        Version::Two | Version::Three => {
            let word = words.next()?;
            if word == b"-".as_slice() {
                return Some(None);
            }
            match read_hex(word, 2) {
                Ok(byte) => Some(Some(byte as u8)),
                Err(_) => None,
            }
        }
    }
}

/// A node of this instance by its next words in a certificate of this form: word, enable bits, I, delay, form of the
/// stack pointer and, except in the first version, pick. None exactly if they are those of no valid node.
#[tactic(auto, unfolding(crate::specs::KeyReading::node_key_at))]
pub fn node_key_of(form: Form, words: &mut Words<'_>, inst: &InstKey) -> Option<NodeKey>
    ensures exact { option_map (λ k. (k, words.new)) result ≡ node_key_at form.device form.version inst.now words.old }
    ensures small { IfSome result (λ k. offset_of k.sp ≤ depth_of form.device) }
{
    let device = form.device;
    let (Some(pc), Some(masks), Some(i), Some(delay), Some(word)) = (
        word_address_of(device, words),
        masks_of(device, words),
        flag_of(words),
        flag_of(words),
        words.next(),
    ) else {
        return None;
    };
    let root = is_root(inst.kind);
    let (Some(sp), Some(pick)) = (sp_form_of(device, word, root), pick_of(words, form.version))
    else {
        return None;
    };
    if pc < device.limit() {
        Some(NodeKey {
            inst: *inst,
            pc,
            masks,
            i,
            delay,
            sp,
            pick,
        })
    } else {
        None
    }
}
