//! What all readers of texts share: words of a line with numbers in them, and whole lines. Each reading is a function in
//! `specs/Reading.antt`, which the calls here compute. Tests: `text_tables`.
#![tactic(auto)]

pub mod laws;
pub mod letters;

ghost use Rattle.std.specs.Prelude.{◌≡◌, ◌≤◌, ◌<◌, ◌^◌, IfSome};
ghost use Rattle.std.specs.Option.{option_map};
ghost use Rattle.line_reading.specs.Reading.{hex_at, dec_at, word_at, is_over, text_in, this_by, taken, passed, line_by, ReadsAt};

pub use letters::Letters;
use text_base::{LineReader, Words, read_dec, read_hex};

/// The line at this offset has the wrong form, or is missing.
#[derive(Clone, Copy)]
pub struct Malformed(pub usize);

/// Reads the next word as a number of exactly `digits` upper-case hexadecimal digits.
pub fn hex_word(words: &mut Words<'_>, digits: usize) -> Option<u128>
    requires some { 1 ≤ digits }
    requires few { digits ≤ 32 }
    ensures exact { option_map (λ n. (n, words.new)) result ≡ hex_at digits words.old }
    ensures small { IfSome result (λ n. n < 16 ^ digits) }
{
    match read_hex(words.next()?, digits) {
        Ok(number) => Some(number),
        Err(_) => None,
    }
}

/// Reads the next word as a canonical decimal of at most `most`.
pub fn dec_word(words: &mut Words<'_>, most: u64) -> Option<u64>
    ensures exact { option_map (λ n. (n, words.new)) result ≡ dec_at most words.old }
    ensures small { IfSome result (λ n. n ≤ most) }
{
    match read_dec(words.next()?, most) {
        Ok(number) => Some(number),
        Err(_) => None,
    }
}

/// Reads the next word, which must be this one.
pub fn expect_word(words: &mut Words<'_>, text: &[u8]) -> Option<()>
    ensures { option_map (λ u. (u, words.new)) result ≡ word_at text.now words.old }
{
    if words.next()? == text {
        Some(())
    } else {
        None
    }
}

/// Whether no word is left.
pub fn is_over(words: &mut Words<'_>) -> bool
    ensures { result ≡ is_over words.old }
{
    words.next().is_none()
}

/// Peeks at the text of the next line. `None` exactly when no line is left or the next is not whole.
pub fn peek_text<'a>(reader: &LineReader<'a>) -> Option<&'a [u8]>
    ensures { option_map (λ t. t.now) result ≡ text_in reader.now.rest }
{
    let line = reader.peek()?;
    if line.whole { Some(line.text) } else { None }
}

/// Passes over the next line if something was found in it. Otherwise refuses the line, and the reader stays before it.
pub fn take_line<T>(reader: &mut LineReader<'_>, found: Option<T>) -> Result<T, Malformed>
    ensures exact { ReadsAt (λ x. x) reader.new result (taken found reader.old (passed reader.old)) }
{
    match found {
        Some(value) => {
            let _ = reader.next();
            Ok(value)
        }
        None => Err(Malformed(reader.offset())),
    }
}

/// Reads the next line, which must be whole and equal to this text. A refusal leaves the reader before it.
#[tactic(auto, unfolding(crate::specs::Reading::line_by))]
pub fn take_text(reader: &mut LineReader<'_>, text: &[u8]) -> Result<(), Malformed>
    ensures exact { ReadsAt (λ u. u) reader.new result (line_by (this_by text.now) reader.old) }
{
    let found = match peek_text(reader) {
        Some(line) if line == text => Some(()),
        _ => None,
    };
    take_line(reader, found)
}
