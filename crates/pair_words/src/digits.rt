//! Numbers in a fixed count of upper-case hexadecimal digits.

ghost use Rattle.std.specs.Prelude.{◌≡◌, ◌∷◌, []};
ghost use Rattle.text_base.specs.Digits.{hex_digits};

use text_base::hex_glyph;

/// A byte in two digits.
pub fn two_digits(byte: u8) -> (u8, u8)
    ensures { hex_digits byte 2 ≡ result.0 ∷ result.1 ∷ [] }
{
    (hex_glyph(byte / 16), hex_glyph(byte % 16))
}

/// A number of 16 bits in four digits.
pub fn four_digits(number: u16) -> (u8, u8, u8, u8)
    ensures { hex_digits number 4 ≡ result.0 ∷ result.1 ∷ result.2 ∷ result.3 ∷ [] }
{
    (
        hex_glyph((number / 4096) as u8),
        hex_glyph((number / 256 % 16) as u8),
        hex_glyph((number / 16 % 16) as u8),
        hex_glyph((number % 16) as u8),
    )
}

// The lowest five digits of a number.
pub(crate) fn five_digits(number: u32) -> (u8, u8, u8, u8, u8)
    ensures { hex_digits number 5 ≡ result.0 ∷ result.1 ∷ result.2 ∷ result.3 ∷ result.4 ∷ [] }
{
    (
        hex_glyph((number / 65_536 % 16) as u8),
        hex_glyph((number / 4096 % 16) as u8),
        hex_glyph((number / 256 % 16) as u8),
        hex_glyph((number / 16 % 16) as u8),
        hex_glyph((number % 16) as u8),
    )
}
