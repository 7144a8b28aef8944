//! The words of values, flags, carry tags, slots and forms of the stack pointer.

ghost use Rattle.std.specs.Prelude.{◌≡◌, ◌≤◌, ◌<◌, ◌^◌, Some, IfSome, IsTrue};
ghost use Rattle.std.specs.Option.{option_map};
ghost use Rattle.avr_model.specs.Devices.{depth_of};
ghost use Rattle.avr_model.specs.State.{has_register};
ghost use Rattle.abs_state.specs.Values.{with_bits};
ghost use Rattle.abs_state.specs.Banks.{is_tag_of};
ghost use Rattle.sp_domain.specs.declared.tags.Tag.{Tag};
ghost use Rattle.sp_domain.specs.declared.tags.Tag.TheVariants as tag;
ghost use Rattle.node_keys.specs.Keys.{offset_of};
ghost use Rattle.line_reading.specs.Reading.{word_by};
ghost use Rattle.cert_words.specs.Reading.{tri_byte, bits_at, tag_by, tag_at, range_at, value_behind, value_in, bank_in, slot_in, flags_in, bytes_in, tagged_by, carry_in, offset_in, marked_in, open_in, form_in};

use abs_state::AbsByte;
use avr_model::device::{Device, EIND, RAMPZ};
use bit_domain::{Range, TriByte};
use certificate::{Form, Version};
use line_reading::Letters;
use node_keys::{High, SpForm};
use pair_words::register_of;
use sp_domain::{CarryTag, Slot, Tag};
use text_base::{Words, read_dec};

// Known bits and their values.
#[tactic(auto, unfolding(crate::specs::Reading::bits_at))]
fn bits_of(letters: &mut Letters<'_>) -> Option<TriByte>
    ensures { option_map (λ t. (t, letters.new)) result ≡ bits_at letters.old }
{
    let known = letters.byte()?;
    let value = letters.byte()?;
    if value & known == value {
        Some(TriByte::new(known, value))
    } else {
        None
    }
}

// Whether the device has this register.
pub(crate) fn has_register(device: Device, register: u16) -> bool
    ensures { result ≡ has_register device register }
{
    register < RAMPZ
        || register == RAMPZ && device.has_elpm()
        || register == EIND && device.has_eijmp()
}

// Whether the device has this tag.
fn is_tag_of(device: Device, tag: Tag) -> bool
    ensures { result ≡ is_tag_of device tag }
{
    match tag {
        Tag::Entry(register) => has_register(device, u16::from(register)),
        Tag::SpHi(_) => device.has_sph(),
        Tag::None | Tag::EntryFlags | Tag::SpLo(_) => true,
    }
}

// The tag of a letter, other than none.
#[tactic(auto, unfolding(crate::specs::Reading::tag_by))]
fn tag_by(letter: u8, letters: &mut Letters<'_>) -> Option<Tag>
    ensures { option_map (λ t. (t, letters.new)) result ≡ tag_by letter letters.old }
{
    if letter == b'e' {
        Some(Tag::Entry(letters.byte()?))
    } else if letter == b'f' {
        Some(Tag::EntryFlags)
    } else if letter == b'l' {
        Some(Tag::SpLo(letters.byte()?))
    } else if letter == b'h' {
        Some(Tag::SpHi(letters.digits(4)? as u16))
    } else {
        None
    }
}

// The tag of a value, which the device has; the root's frame has none.
#[tactic(auto, unfolding(crate::specs::Reading::tag_at, crate::specs::Reading::own_tag_by))]
fn tag_of(device: Device, letters: &mut Letters<'_>, root: bool) -> Option<Tag>
    ensures { option_map (λ t. (t, letters.new)) result ≡ tag_at device root letters.old }
{
    let letter = letters.next()?;
    if letter == b'-' {
        return Some(Tag::None);
    }
    if root {
        return None;
    }
    let tag = tag_by(letter, letters)?;
    if is_tag_of(device, tag) {
        Some(tag)
    } else {
        None
    }
}

// The ends of a value's range, between the least and the greatest byte of the bits.
#[tactic(auto, unfolding(crate::specs::Reading::ends_at))]
fn range_of(letters: &mut Letters<'_>, version: Version, bits: TriByte) -> Option<(u8, u8)>
    ensures { option_map (λ r. (r, letters.new)) result ≡ range_at version bits letters.old }
{
    let all = Range::of_bits(bits);
    match version {
        Version::One => Some((all.low, all.high)),
        Version::Two | Version::Three => {
            let (Some(low), Some(high)) = (letters.byte(), letters.byte()) else {
                return None;
            };
            if all.low <= low && low <= high && high <= all.high {
                Some((low, high))
            } else {
                None
            }
        }
    }
}

// Whether these letters stand for any byte, as most letters after a tag do: a fast path.
fn are_any(letters: &[u8], version: Version) -> bool
    ensures { IsTrue result → (tag : Tag) → value_behind version tag letters.now ≡ Some (with_bits tag (tri_byte 0 0)) }
{
    match version {
        Version::One => matches!(letters, [b'0', b'0', b'0', b'0']),
        Version::Two | Version::Three => matches!(
            letters,
            [b'0', b'0', b'0', b'0', b'0', b'0', b'F', b'F']
        ),
    }
}

// The value of a word.
#[tactic(auto, unfolding(crate::specs::Reading::value_in))]
pub(crate) fn value_of(form: Form, word: &[u8], root: bool) -> Option<AbsByte>
    ensures { result ≡ value_in form.device form.version root word.now }
{
    let mut letters = Letters::new(word);
    let tag = tag_of(form.device, &mut letters, root)?;
    if are_any(letters.rest(), form.version) {
        return Some(AbsByte::of_bits(tag, TriByte::new(0, 0)));
    }
    let bits = bits_of(&mut letters)?;
    let (low, high) = range_of(&mut letters, form.version, bits)?;
    if letters.is_end() {
        Some(AbsByte {
            tag,
            bits,
            low,
            high,
        })
    } else {
        None
    }
}

// The value of RAMPZ or EIND, whose bits permit no number above the register's greatest.
#[tactic(auto, unfolding(crate::specs::Reading::bank_in))]
pub(crate) fn bank_of(form: Form, word: &[u8], root: bool, register: u16) -> Option<AbsByte>
    ensures { result ≡ bank_in form.device form.version root register word.now }
{
    let value = value_of(form, word, root)?;
    if Range::of_bits(value.bits).high <= form.device.bank_most(register) {
        Some(value)
    } else {
        None
    }
}

// The slot of the next word.
#[tactic(auto, unfolding(crate::specs::Reading::slot_in))]
pub(crate) fn slot_of(form: Form, words: &mut Words<'_>, root: bool) -> Option<Slot<AbsByte>>
    ensures { option_map (λ s. (s, words.new)) result ≡ word_by (slot_in form.device form.version root) words.old }
{
    match words.next()? {
        [b'.'] => Some(Slot::Free),
        word => Some(Slot::Guarded(value_of(form, word, root)?)),
    }
}

// The flags of a word: whether they are those of the entry, and their bits.
#[tactic(auto, unfolding(crate::specs::Reading::flags_in))]
pub(crate) fn flags_of(word: &[u8], root: bool) -> Option<(bool, TriByte)>
    ensures { result ≡ flags_in root word.now }
{
    let mut letters = Letters::new(word);
    let letter = letters.next()?;
    let entry = letter == b'f';
    if letter != b'-' && (root || !entry) {
        return None;
    }
    let bits = bits_of(&mut letters)?;
    if bits.known < 128 && letters.is_end() {
        Some((entry, bits))
    } else {
        None
    }
}

// Two bytes, and nothing else.
#[tactic(auto, unfolding(crate::specs::Reading::bytes_in))]
fn bytes_of(letters: &mut Letters<'_>) -> Option<(u8, u8)>
    ensures { result ≡ bytes_in letters.old }
{
    let first = letters.byte()?;
    let second = letters.byte()?;
    if letters.is_end() {
        Some((first, second))
    } else {
        None
    }
}

// The carry tag of a letter, other than none.
#[tactic(auto, unfolding(crate::specs::Reading::less_in))]
fn tagged_by(letter: u8, letters: &mut Letters<'_>, root: bool) -> Option<CarryTag>
    ensures { result ≡ tagged_by root letter letters.old }
{
    if letter == b'b' && !root {
        let (first, second) = bytes_of(letters)?;
        Some(CarryTag::Borrow(first, second))
    } else if letter == b's' && !root {
        let (first, second) = bytes_of(letters)?;
        Some(CarryTag::Sum(first, second))
    } else if letter == b'c' {
        let register = register_of(letters)?;
        let number = letters.byte()?;
        if letters.is_end() {
            Some(CarryTag::Less(register, number))
        } else {
            None
        }
    } else {
        None
    }
}

// The carry tag of a word.
#[tactic(auto, unfolding(crate::specs::Reading::carry_in, crate::specs::Reading::carry_by))]
pub(crate) fn carry_of(word: &[u8], version: Version, root: bool) -> Option<CarryTag>
    ensures { result ≡ carry_in version root word.now }
{
    if word == b"-".as_slice() {
        return Some(CarryTag::None);
    }
    let mut letters = Letters::new(word);
    let letter = letters.next()?;
    match version {
        Version::One => {
            if letter == b'b' {
                tagged_by(letter, &mut letters, root)
            } else {
                None
            }
        }
        Version::Two | Version::Three => tagged_by(letter, &mut letters, root),
    }
}

// The offset that decimal digits stand for.
fn offset_of(device: Device, digits: &[u8]) -> Option<u16>
    ensures exact { result ≡ offset_in device digits.now }
    ensures small { IfSome result (λ n. n ≤ depth_of device) }
{
    match read_dec(digits, u64::from(device.depth())) {
        Ok(number) => Some(number as u16),
        Err(_) => None,
    }
}

// A number after a comma and a letter.
#[tactic(auto, unfolding(crate::specs::Reading::marked_in))]
fn marked_of(text: &[u8], mark: u8, digits: usize) -> Option<u32>
    requires some { 1 ≤ digits }
    requires few { digits ≤ 8 }
    ensures exact { result ≡ marked_in mark digits text.now }
    ensures small { IfSome result (λ n. n < 16 ^ digits) }
{
    let mut letters = Letters::new(text);
    let (Some(comma), Some(letter), Some(number)) = (
        letters.next(),
        letters.next(),
        letters.digits(digits),
    ) else {
        return None;
    };
    if comma == b',' && letter == mark && letters.is_end() {
        Some(number)
    } else {
        None
    }
}

// The form of a half-written stack pointer.
#[tactic(auto, unfolding(crate::specs::Reading::open_in))]
fn open_of(device: Device, text: &[u8], root: bool) -> Option<SpForm>
    ensures exact { result ≡ open_in device root text.now }
    ensures small { IfSome result (λ f. offset_of f ≤ depth_of device) }
{
    let size = if root { 4 } else { 6 };
    if text.len() < size {
        return None;
    }
    let (digits, high) = text.split_at(text.len() - size);
    let offset = offset_of(device, digits)?;
    let high = if root {
        High::Known(marked_of(high, b'k', 2)? as u8)
    } else {
        High::Tag(marked_of(high, b't', 4)? as u16)
    };
    Some(SpForm::Open(offset, high))
}

// The form of the stack pointer of a word. Without SPH none is half-written.
#[tactic(auto, unfolding(crate::specs::Reading::form_in))]
pub(crate) fn sp_form_of(device: Device, word: &[u8], root: bool) -> Option<SpForm>
    ensures exact { result ≡ form_in device root word.now }
    ensures small { IfSome result (λ f. offset_of f ≤ depth_of device) }
{
    let mut letters = Letters::new(word);
    let letter = letters.next()?;
    if letter == b'c' {
        Some(SpForm::Closed(offset_of(device, letters.rest())?))
    } else if letter == b'o' && device.has_sph() {
        open_of(device, letters.rest(), root)
    } else {
        None
    }
}
