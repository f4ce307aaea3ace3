//! Decodes damaged dumps lossily, and tries to decode strictly input that is not the encoding at
//! all, which is an error.

use crate::digest::Digest;
use crate::pool::Pool;
use crate::random::Random;
use crate::scripts::{Script, push_words};
use simd_cesu8::{decode_lossy, decode_strict, encode, lossy_len, mutf8};
use std::alloc::{AllocError, Global};

/// The number of damaged texts.
const TEXTS: usize = 600;

/// The number of inputs for strict decoding.
const OTHERS: usize = 12_000;

pub fn run(
    alloc: Global,
    random: &mut Random,
    rounds: u32,
    digest: &mut Digest,
) -> Result<(), AllocError> {
    let mut texts = damaged(alloc, random)?;
    let mut others = others(alloc, random)?;
    for round in 0..rounds {
        texts.renew(round);
        others.renew(round);
        replace_all(alloc, &texts, digest)?;
        decode_strictly(alloc, &others, digest);
    }
    Ok(())
}

/// Decodes the damaged texts lossily: by turns as UTF-8 or CESU-8, after a call of `lossy_len`, and
/// as MUTF-8.
fn replace_all(alloc: Global, texts: &Pool, digest: &mut Digest) -> Result<(), AllocError> {
    for index in 0..texts.len() {
        let bytes = texts.piece(index);
        if index % 2 == 0 {
            digest.add(lossy_len(bytes).unwrap_or(0) as u64);
            digest.add_bytes(decode_lossy(alloc, bytes)?.as_str().as_bytes());
        } else {
            let text = mutf8::decode_lossy_strict(alloc, bytes)?;
            digest.add_bytes(text.as_str().as_bytes());
        }
    }
    Ok(())
}

/// Decodes the other inputs strictly. The digest gets each text, and 1 for each error.
fn decode_strictly(alloc: Global, others: &Pool, digest: &mut Digest) {
    for index in 0..others.len() {
        let bytes = others.piece(index);
        let outcome = if index % 2 == 0 {
            decode_strict(alloc, bytes)
        } else {
            mutf8::decode_strict(alloc, bytes)
        };
        match outcome {
            Ok(text) => digest.add_bytes(text.as_str().as_bytes()),
            Err(_) => digest.add(1),
        }
    }
}

/// Makes damaged texts of some 60 bytes to 11 KB. Some lines are truncated within a character, some
/// contain Latin-1, and some UTF-8 with characters of four bytes.
fn damaged(alloc: Global, random: &mut Random) -> Result<Pool, AllocError> {
    let mut pool = Pool::new(alloc);
    for _ in 0..TEXTS {
        let bytes = random.of_any_size(40, 8) as usize;
        let mut whole = Vec::new(alloc);
        for _ in 0..bytes / 64 + 1 {
            push_damaged_line(alloc, random, &mut whole)?;
        }
        pool.push(&[], whole.as_slice())?;
    }
    Ok(pool)
}

/// Appends a line of some 64 bytes. At most one in four is damaged, since a truncated line
/// of ASCII is not.
fn push_damaged_line(
    alloc: Global,
    random: &mut Random,
    out: &mut Vec<u8>,
) -> Result<(), AllocError> {
    let mut text = String::new(alloc);
    let script = match random.below(3) {
        0 => Script::Ascii,
        1 => Script::Chinese,
        _ => Script::of_any_language(random),
    };
    push_words(random, script, 56, 20, &mut text)?;
    match random.below(12) {
        // UTF-8 with characters of four bytes.
        0 => {
            push_words(random, script, 16, 2, &mut text)?;
            out.extend_from_slice(text.as_str().as_bytes())
        }
        // Truncated, mostly within a character.
        1 => {
            let encoded = encode(alloc, text.as_str())?;
            let end = encoded.as_bytes().len().saturating_sub(2);
            out.extend_from_slice(&encoded.as_bytes()[..end])
        }
        // Followed by a letter of Latin-1.
        2 => {
            out.extend_from_slice(encode(alloc, text.as_str())?.as_bytes())?;
            out.extend_from_slice(&[random.byte() | 0xC0, b' '])
        }
        _ => out.extend_from_slice(encode(alloc, text.as_str())?.as_bytes()),
    }
}

/// Makes inputs of 5 to 1,100 bytes, most of which are not the encoding of any text: Latin-1, UTF-8
/// with characters of four bytes, UTF-16, random bytes, or a truncated encoding.
fn others(alloc: Global, random: &mut Random) -> Result<Pool, AllocError> {
    let mut pool = Pool::new(alloc);
    for _ in 0..OTHERS {
        let bytes = random.of_any_size(5, 7) as usize;
        let mut text = String::new(alloc);
        push_words(random, Script::Latin, bytes, 4, &mut text)?;
        let mut other = Vec::new(alloc);
        match random.below(5) {
            0 => push_latin1(text.as_str(), &mut other)?,
            1 => other.extend_from_slice(text.as_str().as_bytes())?,
            2 => push_utf16(text.as_str(), &mut other)?,
            3 => {
                for _ in 0..bytes {
                    other.push(random.byte())?;
                }
            }
            _ => {
                let encoded = mutf8::encode(alloc, text.as_str())?;
                other.extend_from_slice(encoded.as_bytes())?;
                other.push(0xED)?;
            }
        }
        pool.push(&[], other.as_slice())?;
    }
    Ok(pool)
}

/// Appends the low byte of each character, as Latin-1 has it.
fn push_latin1(text: &str, out: &mut Vec<u8>) -> Result<(), AllocError> {
    for character in text.chars() {
        out.push((u32::from(character) & 0xFF) as u8)?;
    }
    Ok(())
}

/// Appends the low two bytes of each character, the low byte first, as UTF-16 has them.
fn push_utf16(text: &str, out: &mut Vec<u8>) -> Result<(), AllocError> {
    for character in text.chars() {
        let number = u32::from(character);
        out.push((number & 0xFF) as u8)?;
        out.push((number >> 8 & 0xFF) as u8)?;
    }
    Ok(())
}
