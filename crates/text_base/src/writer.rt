//! A writer of lines of words.

ghost use Rattle.std.specs.Prelude.{◌≡◌, ◌≤◌, [], take, OnOk, OnErr, false, decimal};
ghost use Rattle.text_base.specs.Digits.{hex_digits};
ghost use Rattle.text_base.specs.Writing.{with_word, with_end};

use crate::digits::hex_glyph;
use std::alloc::{AllocError, Global};
use std::marker::Model;

/// Writes lines of words separated by single spaces. Seen as the bytes so far and whether a line has begun. A call that fails changes
/// nothing.
#[derive(Drop)]
pub struct LineWriter {
    alloc: Global,
    bytes: Vec<u8>,
    begun: bool,
}

impl Model for LineWriter {
    ghost use Rattle.text_base.specs.Writing.{Written};

    ghost Value = { Written };

    ghost view = { λ w. record { bytes = w.bytes.items; begun = w.begun } };
}

/// The last upper-case hexadecimal digits of a number, this many, at the front of the array.
pub fn hex_glyphs(number: u128, digits: usize) -> [u8; 32]
    requires { digits ≤ 32 }
    ensures { take digits result ≡ hex_digits number digits }
{
    let mut glyphs = [b'0'; 32];
    let mut rest = number;
    for at in (0..digits).rev() {
        glyphs[at] = hex_glyph((rest % 16) as u8);
        rest /= 16;
    }
    glyphs
}

impl LineWriter {
    /// A writer that has written nothing.
    pub fn new(alloc: Global) -> LineWriter
        ensures { result ≡ record { bytes = []; begun = false } }
    {
        LineWriter {
            alloc,
            bytes: Vec::new(alloc),
            begun: false,
        }
    }

    /// Writes a word.
    pub fn word(&mut self, text: &[u8]) -> Result<(), AllocError>
        ensures written { OnOk result (self.new ≡ with_word self.old text.now) }
        ensures refused { OnErr result (self.new ≡ self.old) }
    {
        let before = self.bytes.len();
        if self.begun {
            self.bytes.push(b' ')?;
        }
        match self.bytes.extend_from_slice(text) {
            Ok(()) => {
                self.begun = true;
                Ok(())
            }
            Err(fault) => {
                self.bytes.truncate(before);
                Err(fault)
            }
        }
    }

    /// Writes the last upper-case hexadecimal digits of a number, this many, as a word.
    pub fn hex(&mut self, number: u32, digits: usize) -> Result<(), AllocError>
        requires { digits ≤ 32 }
        ensures written { OnOk result (self.new ≡ with_word self.old (hex_digits number digits)) }
        ensures refused { OnErr result (self.new ≡ self.old) }
    {
        let glyphs = hex_glyphs(u128::from(number), digits);
        self.word(&glyphs[..digits])
    }

    /// Writes a number as a word in decimal, without leading zeros.
    pub fn dec(&mut self, number: u64) -> Result<(), AllocError>
        ensures written { OnOk result (self.new ≡ with_word self.old (decimal number)) }
        ensures refused { OnErr result (self.new ≡ self.old) }
    {
        let text = number.to_string(self.alloc)?;
        self.word(text.as_bytes())
    }

    /// Ends the line by a line feed.
    pub fn end_line(&mut self) -> Result<(), AllocError>
        ensures written { OnOk result (self.new ≡ with_end self.old) }
        ensures refused { OnErr result (self.new ≡ self.old) }
    {
        self.bytes.push(b'\n')?;
        self.begun = false;
        Ok(())
    }

    /// The written bytes. Takes no memory.
    pub fn finish(self) -> Vec<u8>
        ensures { result.items ≡ self.bytes }
    {
        self.bytes
    }
}
