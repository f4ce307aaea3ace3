//! Decodes the names and values of tag files (NBT), changes some, and encodes them to one buffer.
//! Every second round only decodes them, each to the same buffer, as a search does.

use crate::digest::Digest;
use crate::pool::Pool;
use crate::random::Random;
use crate::scripts::{Script, push_word, push_words};
use java_text::{read_utf, read_utf_to_slice, write_utf};
use simd_cesu8::mutf8;
use std::alloc::{AllocError, Global};

/// The number of tags.
const TAGS: usize = 6_000;

/// The size of a buffer in which any value fits, in bytes.
const MOST: usize = 512;

pub fn run(
    alloc: Global,
    random: &mut Random,
    rounds: u32,
    digest: &mut Digest,
) -> Result<(), AllocError> {
    let mut pool = tags(alloc, random)?;
    for round in 0..rounds {
        pool.renew(round);
        if round % 2 == 0 {
            rewrite(alloc, &pool, digest)?;
        } else {
            decode_to_buffer(&pool, digest);
        }
    }
    Ok(())
}

/// Decodes all strings, and encodes them again. One value in four loses its first character: the
/// values have odd indices, since each follows its name.
fn rewrite(alloc: Global, pool: &Pool, digest: &mut Digest) -> Result<(), AllocError> {
    let mut written = Vec::new(alloc);
    let mut rest = pool.bytes();
    for index in 0..pool.len() {
        let Ok((text, behind)) = read_utf(alloc, rest) else {
            digest.add(1);
            break;
        };
        let text = text.as_str();
        let changed = if index % 8 == 1 {
            without_first(text)
        } else {
            text
        };
        if write_utf(changed, &mut written).is_err() {
            digest.add(2);
        }
        rest = behind;
    }
    digest.add_bytes(written.as_slice());
    Ok(())
}

/// Returns a text without its first character.
fn without_first(text: &str) -> &str {
    let mut chars = text.chars();
    let _ = chars.next();
    chars.as_str()
}

/// Decodes all strings, each to the same buffer.
fn decode_to_buffer(pool: &Pool, digest: &mut Digest) {
    let mut buffer = [0; MOST];
    let mut rest = pool.bytes();
    for _ in 0..pool.len() {
        let Ok((length, behind)) = read_utf_to_slice(rest, &mut buffer) else {
            digest.add(1);
            break;
        };
        if length <= MOST {
            digest.add_bytes(&buffer[..length]);
        }
        rest = behind;
    }
}

/// Makes the tags, each a name and a value.
fn tags(alloc: Global, random: &mut Random) -> Result<Pool, AllocError> {
    let mut pool = Pool::new(alloc);
    for _ in 0..TAGS {
        let mut name = String::new(alloc);
        let letters = random.below(18);
        push_word(random, Script::Ascii, letters, &mut name)?;
        pool.push_form(&[], name.as_str().as_bytes())?;

        let mut before = String::new(alloc);
        let mut after = String::new(alloc);
        let bytes = random.of_any_size(10, 4) as usize;
        let (script, emoji_in) = match random.below(10) {
            0..=6 => (Script::Ascii, 0),
            7 => (Script::Ascii, 8),
            _ => (Script::of_any_language(random), 16),
        };
        push_words(random, script, bytes / 2, emoji_in, &mut before)?;
        push_words(random, script, bytes / 2, emoji_in, &mut after)?;
        let before = mutf8::encode(alloc, before.as_str())?;
        let after = mutf8::encode(alloc, after.as_str())?;
        pool.push_form(before.as_bytes(), after.as_bytes())?;
    }
    Ok(pool)
}
