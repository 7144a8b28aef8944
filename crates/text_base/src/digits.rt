//! Numbers in upper-case hexadecimal and in decimal digits.

ghost use Rattle.std.specs.Prelude.{◌≡◌, ◌≤◌, ◌<◌, ◌+◌, ◌*◌, ◌-◌, ◌==◌, ◌^◌, IfNone, IfOk, not, length, true};
ghost use Rattle.std.specs.List.{position, AllByRecursion};
ghost use Rattle.text_base.specs.Digits.{is_dec, is_hex, digit_of, hex_digit, number_from, hex_answer, dec_answer, capped};

/// Why digits are refused as a number.
#[derive(Clone, Copy, PartialEq, Eq)]
pub enum DigitFault {
    /// The text has this many bytes, which is not the required number, or it is empty.
    WrongLength(usize),
    /// The index of the first byte that is no digit; 0 if a decimal of several digits begins with the digit 0.
    BadDigit(usize),
    /// The number exceeds the greatest one permitted.
    TooGreat,
}

fn is_decimal(byte: u8) -> bool
    ensures { result ≡ is_dec byte }
{
    byte >= b'0' && byte <= b'9'
}

fn is_hexadecimal(byte: u8) -> bool
    ensures { result ≡ is_hex byte }
{
    is_decimal(byte) || (byte >= b'A' && byte <= b'F')
}

// The value of a hexadecimal digit.
fn value_of(digit: u8) -> u8
    requires { is_hex digit ≡ true }
    ensures value { result ≡ digit_of digit }
    ensures small { result < 16 }
{
    if digit >= b'A' {
        digit - b'A' + 10
    } else {
        digit - b'0'
    }
}

// The value of at most 32 hexadecimal digits.
fn hex_number(digits: &[u8]) -> u128
    requires short { length digits.now ≤ 32 }
    requires digits { AllByRecursion (λ b. is_hex b ≡ true) digits.now }
    ensures number { result ≡ number_from 16 0 digits.now }
    ensures small { result < 16 ^ length digits.now }
{
    let mut number = 0u128;
    for digit in digits {
        number = 16 * number + u128::from(value_of(*digit));
    }
    number
}

// The index of the first byte that is no hexadecimal digit.
fn bad_hex(text: &[u8]) -> Option<usize>
    ensures at { result ≡ position (λ b. not (is_hex b)) text.now }
    ensures all { IfNone result (AllByRecursion (λ b. is_hex b ≡ true) text.now) }
{
    text.iter().position(|byte| !is_hexadecimal(*byte))
}

// The index of the first byte that is no decimal digit.
fn bad_dec(text: &[u8]) -> Option<usize>
    ensures at { result ≡ position (λ b. not (is_dec b)) text.now }
    ensures all { IfNone result (AllByRecursion (λ b. is_dec b ≡ true) text.now) }
{
    text.iter().position(|byte| !is_decimal(*byte))
}

/// Reads a number of exactly `digits` upper-case hexadecimal digits.
///
/// Fails with `WrongLength` exactly if the text has another number of bytes, else with `BadDigit` exactly if a byte is no such digit.
pub fn read_hex(text: &[u8], digits: usize) -> Result<u128, DigitFault>
    requires some { 1 ≤ digits }
    requires few { digits ≤ 32 }
    ensures exact { result ≡ hex_answer text.now digits }
    ensures small { IfOk result (λ n. n < 16 ^ digits) }
{
    if text.len() != digits {
        return Err(DigitFault::WrongLength(text.len()));
    }
    match bad_hex(text) {
        Some(at) => Err(DigitFault::BadDigit(at)),
        None => Ok(hex_number(text)),
    }
}

// The value of decimal digits, if it is at most `most`.
fn dec_number(digits: &[u8], most: u64) -> Result<u64, DigitFault>
    requires { AllByRecursion (λ b. is_dec b ≡ true) digits.now }
    ensures { result ≡ capped (number_from 10 0 digits.now) most }
{
    let mut number = 0u64;
    for digit in digits {
        let value = u64::from(value_of(*digit));
        if number > most / 10 || value > most - 10 * number {
            return Err(DigitFault::TooGreat);
        }
        number = 10 * number + value;
    }
    Ok(number)
}

/// Reads a decimal number of at most `most`, without sign or leading zero.
///
/// Fails with `WrongLength` exactly if the text is empty, else with `BadDigit` exactly if a byte is no decimal digit or several bytes
/// begin with the digit 0, else with `TooGreat` exactly if the number exceeds `most`.
pub fn read_dec(text: &[u8], most: u64) -> Result<u64, DigitFault>
    ensures exact { result ≡ dec_answer text.now most }
    ensures small { IfOk result (λ n. n ≤ most) }
{
    if text.is_empty() {
        return Err(DigitFault::WrongLength(0));
    }
    if text.len() > 1 && text[0] == b'0' {
        return Err(DigitFault::BadDigit(0));
    }
    match bad_dec(text) {
        Some(at) => Err(DigitFault::BadDigit(at)),
        None => dec_number(text, most),
    }
}

/// The upper-case hexadecimal digit of a value.
pub fn hex_glyph(value: u8) -> u8
    requires { value < 16 }
    ensures { result ≡ hex_digit value }
{
    if value < 10 {
        b'0' + value
    } else {
        b'A' + (value - 10)
    }
}
