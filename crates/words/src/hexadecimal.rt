// Bytes and patterns in lowercase hexadecimal digits.
ghost use Rattle.std.specs.Prelude.{◌≡◌, ◌^◌, ◌<◌, ◌≤◌, [], ◌∷◌, length, IfSome, IfOk, Some, vec_items, string_bytes};
ghost use Rattle.std.specs.Option.{option_map};
ghost use Rattle.words.specs.Appending.{Appends};
ghost use Rattle.words.specs.Hexadecimals.{digit_of, char_of, number_of, pairs_of, bytes_of, pattern_of, numeral, spelled, pattern_spelled};

use std::alloc::{AllocError, Global};
use std::fmt;

// The character of a digit. By hand, for what prints and appends digits; `as`: a digit is below 16, so nothing is lost.
fn digit_char(digit: u64) -> char
    requires { digit < 16 }
    ensures { result ≡ char_of digit }
{
    if digit < 10 {
        char::from(b'0' + digit as u8)
    } else {
        char::from(b'a' + (digit - 10) as u8)
    }
}

// Bytes, which print as pairs of digits, or as `-` where there are none.
#[derive(Clone, Copy, Debug, PartialEq, Eq, Hash)]
pub struct HexBytes<'a>(pub &'a [u8]);

impl fmt::Display for HexBytes<'_> {
    ghost output = { λ h. Some (spelled h.0.now) };

    fn fmt<W: fmt::Write>(&self, f: &mut fmt::Formatter<W>) -> fmt::Result {
        if self.0.is_empty() {
            return write!(f, "-");
        }
        // By digit: a hole as `{byte:02x}` takes four times as long, and most of what a message prints is digits.
        let mut utf8 = [0; 4];
        for &byte in self.0 {
            let byte = u64::from(byte);
            f.write_str(digit_char(byte / 16).encode_utf8(&mut utf8))?;
            f.write_str(digit_char(byte % 16).encode_utf8(&mut utf8))?;
        }
        Ok(())
    }
}

// A 64-bit pattern, which prints as sixteen digits.
#[derive(Clone, Copy, Debug, PartialEq, Eq, Hash)]
pub struct HexPattern(pub u64);

impl fmt::Display for HexPattern {
    ghost output = { λ p. Some (pattern_spelled p.0) };

    fn fmt<W: fmt::Write>(&self, f: &mut fmt::Formatter<W>) -> fmt::Result {
        let pattern = self.0;
        write!(f, "{pattern:016x}")
    }
}

// The value of a digit. By hand: the library's would take uppercase digits.
fn digit_value(c: u8) -> Option<u8>
    ensures { result ≡ digit_of c }
{
    match c {
        b'0'..=b'9' => Some(c - b'0'),
        b'a'..=b'f' => Some(c - b'a' + 10),
        _ => None,
    }
}

// The byte that two digits spell.
fn pair_value(high: u8, low: u8) -> Option<u8>
    ensures { result ≡ number_of (high ∷ low ∷ []) }
{
    let high = digit_value(high)?;
    let low = digit_value(low)?;
    Some(high * 16 + low)
}

// The bytes that pairs of digits spell. By hand: `hex` would take uppercase digits, and to test them first takes twice as long.
fn pairs(heap: Global, digits: &[u8]) -> Result<Option<Vec<u8>>, AllocError>
    ensures { IfOk result (λ o. option_map vec_items o ≡ pairs_of digits.now) }
{
    if digits.len() % 2 != 0 {
        return Ok(None);
    }
    let mut bytes = Vec::new(heap);
    for i in 0..digits.len() / 2 {
        let Some(byte) = pair_value(digits[2 * i], digits[2 * i + 1]) else {
            return Ok(None);
        };
        bytes.push(byte)?;
    }
    Ok(Some(bytes))
}

// The bytes of a word: one pair of digits or more, or `-` for none. None is a word of another kind, an error is want of memory.
pub fn bytes(heap: Global, word: &str) -> Result<Option<Vec<u8>>, AllocError>
    ensures { IfOk result (λ o. option_map vec_items o ≡ bytes_of word.now) }
{
    if word == "-" {
        return Ok(Some(Vec::new(heap)));
    }
    if word.is_empty() {
        return Ok(None);
    }
    pairs(heap, word.as_bytes())
}

// The number that at most sixteen digits spell, high digit first. By hand: `from_str_radix` would take a plus and uppercase digits,
// and takes three times as long.
fn number(digits: &[u8]) -> Option<u64>
    requires { length digits.now ≤ 16 }
    ensures answer { result ≡ number_of digits.now }
    ensures bound { IfSome result (λ n. n < 16 ^ length digits.now) }
{
    let mut value = 0;
    for c in digits {
        value = value * 16 + u64::from(digit_value(*c)?);
    }
    Some(value)
}

// How many digits a pattern has.
const PATTERN_DIGITS: usize = 16;

// The number of a word of exactly sixteen digits.
pub fn pattern(word: &str) -> Option<u64>
    ensures { result ≡ pattern_of word.now }
{
    if word.len() != PATTERN_DIGITS {
        return None;
    }
    number(word.as_bytes())
}

// Appends the last `count` digits of `value`, high digit first. To `out` itself, so that no memory is asked for where it has room;
// `write!` would promise nothing of it where memory fails.
fn push_digits(out: &mut String, value: u64, count: u32) -> Result<(), AllocError>
    requires { count ≤ 16 }
    ensures { Appends (numeral count value) (string_bytes out.old) result (string_bytes out.new) }
{
    for place in (0..count).rev() {
        let digit = (value >> (4 * place)) % 16;
        out.push(digit_char(digit))?;
    }
    Ok(())
}

// Appends bytes as pairs of digits, or `-` for none. What is appended, `bytes` reads back.
pub fn push_bytes(out: &mut String, bytes: &[u8]) -> Result<(), AllocError>
    ensures after { Appends (spelled bytes.now) (string_bytes out.old) result (string_bytes out.new) }
    ensures read_back { bytes_of (spelled bytes.now) ≡ Some bytes.now }
{
    if bytes.is_empty() {
        return out.push('-');
    }
    for byte in bytes {
        push_digits(out, u64::from(*byte), 2)?;
    }
    Ok(())
}

// Appends sixteen digits. What is appended, `pattern` reads back.
pub fn push_pattern(out: &mut String, pattern: u64) -> Result<(), AllocError>
    ensures after { Appends (pattern_spelled pattern) (string_bytes out.old) result (string_bytes out.new) }
    ensures read_back { pattern_of (pattern_spelled pattern) ≡ Some pattern }
{
    push_digits(out, pattern, 16)
}
