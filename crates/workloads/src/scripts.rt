//! Words and texts in the scripts of many languages.

ghost use Rattle.std.specs.Prelude.{◌<◌};

use crate::random::Random;
use std::alloc::AllocError;

/// The script of a text's letters.
#[derive(Clone, Copy)]
pub enum Script {
    Ascii,
    /// ASCII, and one letter in six with a diacritic.
    Latin,
    Cyrillic,
    Arabic,
    Devanagari,
    Japanese,
    Chinese,
    Korean,
}

impl Script {
    /// Returns a script other than ASCII.
    pub fn of_any_language(random: &mut Random) -> Self {
        match random.below(8) {
            0 | 1 => Script::Latin,
            2 => Script::Cyrillic,
            3 => Script::Arabic,
            4 => Script::Devanagari,
            5 => Script::Japanese,
            6 => Script::Chinese,
            _ => Script::Korean,
        }
    }

    /// Returns the lowest letter and the number of letters.
    fn letters(self) -> (u32, u32)
        ensures { 0 < result.1 }
    {
        match self {
            Script::Ascii => (0x61, 26),
            Script::Latin => (0xC0, 0xC0),
            Script::Cyrillic => (0x430, 32),
            Script::Arabic => (0x627, 36),
            Script::Devanagari => (0x905, 53),
            Script::Japanese => (0x3041, 86),
            Script::Chinese => (0x4E00, 0x5000),
            Script::Korean => (0xAC00, 0x2BA4),
        }
    }

    /// Returns a letter.
    fn letter(self, random: &mut Random) -> char {
        let script = match self {
            Script::Latin if !random.one_in(6) => Script::Ascii,
            script => script,
        };
        let (lowest, count) = script.letters();
        char_of(lowest.wrapping_add(random.below(count)))
    }
}

/// Returns the scalar value with this number.
fn char_of(number: u32) -> char {
    char::from_u32(number).unwrap_or('?')
}

/// Appends an emoji.
pub fn push_emoji(random: &mut Random, out: &mut String) -> Result<(), AllocError> {
    let number = 0x1F300 + random.below(0x250);
    out.push(char_of(number))
}

/// Appends a word of this many letters.
pub fn push_word(
    random: &mut Random,
    script: Script,
    letters: u32,
    out: &mut String,
) -> Result<(), AllocError> {
    for _ in 0..letters {
        out.push(script.letter(random))?;
    }
    Ok(())
}

/// Appends words, each followed by a space, until they have at least this many bytes. About one
/// word in `emoji_in` is an emoji, or none if it is 0.
pub fn push_words(
    random: &mut Random,
    script: Script,
    bytes: usize,
    emoji_in: u32,
    out: &mut String,
) -> Result<(), AllocError> {
    let end = out.as_str().len().saturating_add(bytes);
    // Each round appends at least one byte, so `bytes` rounds are enough.
    for _ in 0..bytes {
        if out.as_str().len() >= end {
            break;
        }
        if emoji_in > 0 && random.one_in(emoji_in) {
            push_emoji(random, out)?;
        } else {
            let letters = random.within(2, 9);
            push_word(random, script, letters, out)?;
        }
        out.push(' ')?;
    }
    Ok(())
}
