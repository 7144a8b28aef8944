//! The bytes of a word, read from its front.

ghost use Rattle.std.specs.Prelude.{◌≡◌, ◌≤◌, ◌<◌, ◌^◌, Some, None, if◌then◌else◌, IfSome};
ghost use Rattle.std.specs.Option.{option_map};
ghost use Rattle.text_base.specs.Digits.{is_hex, digit_of};
ghost use Rattle.line_reading.specs.Letters.{letter_at, digits_at, is_end};

use std::marker::Model;
use text_base::read_hex;

/// The bytes of a word that are still to be read.
#[derive(Drop)]
pub struct Letters<'a> {
    rest: &'a [u8],
}

impl<'a> Model for Letters<'a> {
    ghost use Rattle.std.specs.Prelude.{List, ℕ};

    ghost Value = { List ℕ };

    ghost view = { λ l. l.rest.now };
}

// The value of each byte as an upper-case hexadecimal digit; 16 if it is none.
static DIGITS: [u8; 256] = [
    16, 16, 16, 16, 16, 16, 16, 16, 16, 16, 16, 16, 16, 16, 16, 16, 16, 16, 16, 16, 16, 16, 16, 16,
    16, 16, 16, 16, 16, 16, 16, 16, 16, 16, 16, 16, 16, 16, 16, 16, 16, 16, 16, 16, 16, 16, 16, 16,
    0, 1, 2, 3, 4, 5, 6, 7, 8, 9, 16, 16, 16, 16, 16, 16, 16, 10, 11, 12, 13, 14, 15, 16, 16, 16,
    16, 16, 16, 16, 16, 16, 16, 16, 16, 16, 16, 16, 16, 16, 16, 16, 16, 16, 16, 16, 16, 16, 16, 16,
    16, 16, 16, 16, 16, 16, 16, 16, 16, 16, 16, 16, 16, 16, 16, 16, 16, 16, 16, 16, 16, 16, 16, 16,
    16, 16, 16, 16, 16, 16, 16, 16, 16, 16, 16, 16, 16, 16, 16, 16, 16, 16, 16, 16, 16, 16, 16, 16,
    16, 16, 16, 16, 16, 16, 16, 16, 16, 16, 16, 16, 16, 16, 16, 16, 16, 16, 16, 16, 16, 16, 16, 16,
    16, 16, 16, 16, 16, 16, 16, 16, 16, 16, 16, 16, 16, 16, 16, 16, 16, 16, 16, 16, 16, 16, 16, 16,
    16, 16, 16, 16, 16, 16, 16, 16, 16, 16, 16, 16, 16, 16, 16, 16, 16, 16, 16, 16, 16, 16, 16, 16,
    16, 16, 16, 16, 16, 16, 16, 16, 16, 16, 16, 16, 16, 16, 16, 16, 16, 16, 16, 16, 16, 16, 16, 16,
    16, 16, 16, 16, 16, 16, 16, 16, 16, 16, 16, 16, 16, 16,
];

// The value of an upper-case hexadecimal digit; `None` if the byte is none.
fn digit_of(byte: u8) -> Option<u8>
    ensures value { result ≡ (if is_hex byte then Some (digit_of byte) else None) }
    ensures small { IfSome result (λ n. n < 16) }
{
    let digit = DIGITS[usize::from(byte)];
    if digit < 16 { Some(digit) } else { None }
}

impl<'a> Letters<'a> {
    /// All bytes of a word.
    pub fn new(word: &'a [u8]) -> Letters<'a>
        ensures { result ≡ word.now }
    {
        Letters { rest: word }
    }

    /// Reads the next byte.
    pub fn next(&mut self) -> Option<u8>
        ensures { option_map (λ b. (b, self.new)) result ≡ letter_at self.old }
    {
        let (first, rest) = self.rest.split_first()?;
        self.rest = rest;
        Some(*first)
    }

    /// Reads the next bytes as a number of this many upper-case hexadecimal digits.
    #[tactic(auto, unfolding(crate::specs::Letters::digits_at))]
    pub fn digits(&mut self, count: usize) -> Option<u32>
        requires some { 1 ≤ count }
        requires few { count ≤ 8 }
        ensures exact { option_map (λ n. (n, self.new)) result ≡ digits_at count self.old }
        ensures small { IfSome result (λ n. n < 16 ^ count) }
    {
        if self.rest.len() < count {
            return None;
        }
        let (digits, rest) = self.rest.split_at(count);
        match read_hex(digits, count) {
            Ok(number) => {
                self.rest = rest;
                Some(number as u32)
            }
            Err(_) => None,
        }
    }

    /// Reads the next two bytes as a number in two upper-case hexadecimal digits.
    #[tactic(auto, using(crate::proofs::Digits::no_letter, crate::proofs::Digits::one_letter, crate::proofs::Digits::two_letters))]
    pub fn byte(&mut self) -> Option<u8>
        ensures { option_map (λ n. (n, self.new)) result ≡ digits_at 2 self.old }
    {
        let Some((high, behind)) = self.rest.split_first() else {
            return None;
        };
        let Some((low, rest)) = behind.split_first() else {
            return None;
        };
        let high = digit_of(*high)?;
        let low = digit_of(*low)?;
        self.rest = rest;
        Some(16 * high + low)
    }

    /// The rest of the word.
    pub fn rest(&self) -> &'a [u8]
        ensures { result.now ≡ self.now }
    {
        self.rest
    }

    /// Whether nothing is left.
    pub fn is_end(&self) -> bool
        ensures { result ≡ is_end self.now }
    {
        self.rest.is_empty()
    }
}
