//! A plain codec, which takes one character after another and follows the standards' tables of byte
//! patterns and of code units. It shares no code with the library.

ghost use Rattle.std.specs.Prelude.{◌≤◌};

use crate::decoders::{Decoder, Outcome};
use crate::flavors::Flavor;
use std::alloc::{AllocError, Global};
use std::str;

/// Appends the bytes of one code unit.
fn push_unit(bytes: &mut Vec<u8>, flavor: Flavor, unit: u16) -> Result<(), AllocError> {
    match (flavor, unit) {
        (Flavor::Mutf8, 0) => bytes.extend_from_slice(&[0xC0, 0x80]),
        (_, ..0x80) => bytes.extend_from_slice(&[unit as u8]),
        (_, ..0x800) => {
            bytes.extend_from_slice(&[(0xC0 + unit / 0x40) as u8, (0x80 + unit % 0x40) as u8])
        }
        _ => bytes.extend_from_slice(&[
            (0xE0 + unit / 0x1000) as u8,
            (0x80 + unit / 0x40 % 0x40) as u8,
            (0x80 + unit % 0x40) as u8,
        ]),
    }
}

/// Appends the one or two code units of a character.
fn push_units(units: &mut Vec<u16>, character: char) -> Result<(), AllocError> {
    let scalar = u32::from(character);
    if scalar < 0x10000 {
        units.push(scalar as u16)?;
    } else {
        let offset = scalar - 0x10000;
        units.push((0xD800 + offset / 0x400) as u16)?;
        units.push((0xDC00 + offset % 0x400) as u16)?;
    }
    Ok(())
}

/// The UTF-16 code units of a string.
pub fn units(alloc: Global, text: &str) -> Result<Vec<u16>, AllocError> {
    let mut units = Vec::new(alloc);
    for character in text.chars() {
        push_units(&mut units, character)?;
    }
    Ok(units)
}

/// The encoding of a string.
pub fn encoded(alloc: Global, flavor: Flavor, text: &str) -> Result<Vec<u8>, AllocError> {
    let mut bytes = Vec::new(alloc);
    let units = units(alloc, text)?;
    for unit in units.as_slice() {
        push_unit(&mut bytes, flavor, *unit)?;
    }
    Ok(bytes)
}

/// The length of the encoded character at the start of the bytes, or 0 if there is none.
fn width(flavor: Flavor, bytes: &[u8]) -> usize
    ensures { result ≤ 6 }
{
    let mutf8 = flavor == Flavor::Mutf8;
    match bytes {
        [0x00, ..] if mutf8 => 0,
        [0x00..=0x7F, ..] => 1,
        [0xC0, 0x80, ..] if mutf8 => 2,
        [0xC2..=0xDF, 0x80..=0xBF, ..] => 2,
        [0xE0, 0xA0..=0xBF, 0x80..=0xBF, ..] => 3,
        [0xE1..=0xEC, 0x80..=0xBF, 0x80..=0xBF, ..] => 3,
        [0xED, 0x80..=0x9F, 0x80..=0xBF, ..] => 3,
        [0xEE..=0xEF, 0x80..=0xBF, 0x80..=0xBF, ..] => 3,
        [
            0xED,
            0xA0..=0xAF,
            0x80..=0xBF,
            0xED,
            0xB0..=0xBF,
            0x80..=0xBF,
            ..
        ] => 6,
        _ => 0,
    }
}

/// The character that these bytes encode, or U+FFFD for no bytes, which stand for damage. Each byte
/// holds some of the bits of the scalar value.
fn character(bytes: &[u8]) -> char {
    let scalar = match bytes {
        [a] => u32::from(*a),
        [a, b] => u32::from(*a % 0x20) * 0x40 + u32::from(*b % 0x40),
        [a, b, c] => {
            u32::from(*a % 0x10) * 0x1000 + u32::from(*b % 0x40) * 0x40 + u32::from(*c % 0x40)
        }
        [_, b, c, _, e, f] => {
            let high = u32::from(*b % 0x10) * 0x40 + u32::from(*c % 0x40);
            let low = u32::from(*e % 0x10) * 0x40 + u32::from(*f % 0x40);
            0x10000 + high * 0x400 + low
        }
        _ => 0xFFFD,
    };
    char::from_u32(scalar).unwrap_or('\u{FFFD}')
}

/// A lossy reading: its text, with one U+FFFD for each byte that is not part of a character, as the
/// library defines it; the number of these bytes; and the offset of the first one, or the length of
/// the input if there is none.
#[derive(Drop)]
pub struct Reading {
    pub text: String,
    pub damaged: usize,
    pub valid: usize,
}

/// The lossy reading of the bytes.
pub fn read(alloc: Global, flavor: Flavor, bytes: &[u8]) -> Result<Reading, AllocError> {
    let mut text = String::new(alloc);
    let mut damaged = 0usize;
    let mut valid = bytes.len();
    // How many bytes of the last character are still to be skipped.
    let mut inside = 0usize;
    for place in 0..bytes.len() {
        if inside > 0 {
            inside -= 1;
            continue;
        }
        let rest = &bytes[place..];
        let width = width(flavor, rest);
        text.push(character(rest.get(..width).unwrap_or(&[])))?;
        if width == 0 {
            // It never wraps, since there are at most `bytes.len()` such bytes.
            damaged = damaged.wrapping_add(1);
            valid = valid.min(place);
        }
        inside = width.saturating_sub(1);
    }
    Ok(Reading {
        text,
        damaged,
        valid,
    })
}

impl Reading {
    /// The outcome that a call must have for the bytes of this reading.
    pub fn expected<'a>(&'a self, decoder: Decoder, bytes: &'a [u8]) -> Outcome<'a> {
        if decoder.is_lenient() {
            if let Ok(text) = str::from_utf8(bytes) {
                return Outcome::Borrowed(text);
            }
        }
        let text = self.text.as_str();
        if self.damaged > 0 && !decoder.is_lossy() {
            Outcome::Invalid
        } else if text.as_bytes() == bytes {
            Outcome::Borrowed(text)
        } else {
            Outcome::Owned(text)
        }
    }
}
