//! The words of values, flags, carry tags and slots.

ghost use Rattle.std.specs.Prelude.{◌≡◌, ◌∷◌, ◌++◌, [], OnOk};
ghost use Rattle.text_base.specs.Digits.{hex_digits};
ghost use Rattle.text_base.specs.Writing.{with_word};
ghost use Rattle.certificate.specs.declared.version.Version.TheVariants.{One, Two};
ghost use Rattle.cert_words.specs.Spelling.{value_word, flags_word, carry_word, slot_word};

use abs_state::{AbsByte, AbsFlags};
use certificate::Version;
use pair_words::{four_digits, two_digits};
use sp_domain::{CarryTag, Slot, Tag};
use std::alloc::AllocError;
use text_base::LineWriter;

// Two bytes in two digits each.
fn both_digits(first: u8, second: u8) -> (u8, u8, u8, u8)
    ensures { hex_digits first 2 ++ hex_digits second 2 ≡ result.0 ∷ result.1 ∷ result.2 ∷ result.3 ∷ [] }
{
    let a = two_digits(first);
    let b = two_digits(second);
    (a.0, a.1, b.0, b.1)
}

// Writes a value without its range.
fn write_bits(out: &mut LineWriter, value: &AbsByte) -> Result<(), AllocError>
    ensures { OnOk result (out.new ≡ with_word out.old (value_word One value.now)) }
{
    let v = both_digits(value.bits.known, value.bits.value);
    match value.tag {
        Tag::None => out.word(&[b'-', v.0, v.1, v.2, v.3]),
        Tag::Entry(register) => {
            let r = two_digits(register);
            out.word(&[b'e', r.0, r.1, v.0, v.1, v.2, v.3])
        }
        Tag::EntryFlags => out.word(&[b'f', v.0, v.1, v.2, v.3]),
        Tag::SpLo(below) => {
            let j = two_digits(below);
            out.word(&[b'l', j.0, j.1, v.0, v.1, v.2, v.3])
        }
        Tag::SpHi(below) => {
            let n = four_digits(below);
            out.word(&[b'h', n.0, n.1, n.2, n.3, v.0, v.1, v.2, v.3])
        }
    }
}

// Writes a value with its range.
fn write_bits_and_range(out: &mut LineWriter, value: &AbsByte) -> Result<(), AllocError>
    ensures { OnOk result (out.new ≡ with_word out.old (value_word Two value.now)) }
{
    let v = both_digits(value.bits.known, value.bits.value);
    let a = both_digits(value.low, value.high);
    match value.tag {
        Tag::None => out.word(&[b'-', v.0, v.1, v.2, v.3, a.0, a.1, a.2, a.3]),
        Tag::Entry(register) => {
            let r = two_digits(register);
            out.word(&[b'e', r.0, r.1, v.0, v.1, v.2, v.3, a.0, a.1, a.2, a.3])
        }
        Tag::EntryFlags => out.word(&[b'f', v.0, v.1, v.2, v.3, a.0, a.1, a.2, a.3]),
        Tag::SpLo(below) => {
            let j = two_digits(below);
            out.word(&[b'l', j.0, j.1, v.0, v.1, v.2, v.3, a.0, a.1, a.2, a.3])
        }
        Tag::SpHi(below) => {
            let n = four_digits(below);
            out.word(&[
                b'h', n.0, n.1, n.2, n.3, v.0, v.1, v.2, v.3, a.0, a.1, a.2, a.3,
            ])
        }
    }
}

// Writes a value.
pub(crate) fn write_value(
    out: &mut LineWriter,
    version: Version,
    value: &AbsByte,
) -> Result<(), AllocError>
    ensures { OnOk result (out.new ≡ with_word out.old (value_word version value.now)) }
{
    match version {
        Version::One => write_bits(out, value),
        Version::Two | Version::Three => write_bits_and_range(out, value),
    }
}

// Writes a slot.
pub(crate) fn write_slot(
    out: &mut LineWriter,
    version: Version,
    slot: &Slot<AbsByte>,
) -> Result<(), AllocError>
    ensures { OnOk result (out.new ≡ with_word out.old (slot_word version slot.now)) }
{
    match slot {
        Slot::Free => out.word(b"."),
        Slot::Guarded(value) => write_value(out, version, value),
    }
}

// Writes a carry tag.
fn write_carry(out: &mut LineWriter, carry: CarryTag) -> Result<(), AllocError>
    ensures { OnOk result (out.new ≡ with_word out.old (carry_word carry)) }
{
    match carry {
        CarryTag::None => out.word(b"-"),
        CarryTag::Borrow(first, second) => {
            let n = both_digits(first, second);
            out.word(&[b'b', n.0, n.1, n.2, n.3])
        }
        CarryTag::Sum(first, second) => {
            let n = both_digits(first, second);
            out.word(&[b's', n.0, n.1, n.2, n.3])
        }
        CarryTag::Less(register, number) => {
            let n = both_digits(register, number);
            out.word(&[b'c', n.0, n.1, n.2, n.3])
        }
    }
}

// Writes flags and their carry tag.
pub(crate) fn write_flags(out: &mut LineWriter, flags: &AbsFlags) -> Result<(), AllocError>
    ensures { OnOk result (out.new ≡ with_word (with_word out.old (flags_word flags.now.entry flags.now.bits)) (carry_word flags.now.carry)) }
{
    let entry = if flags.entry { b'f' } else { b'-' };
    let v = both_digits(flags.bits.known, flags.bits.value);
    out.word(&[entry, v.0, v.1, v.2, v.3])?;
    write_carry(out, flags.carry)
}
