//! Uses titles and names in many languages as keys of a store in the order of UTF-16: decodes the
//! keys, sorts their texts and encodes them again.

use crate::digest::Digest;
use crate::pool::Pool;
use crate::random::Random;
use crate::scripts::{Script, push_words};
use simd_cesu8::{
    CowText, compare_as_utf16, decode_strict, decode_strict_to_slice, encode, encode_into,
};
use std::alloc::{AllocError, Global};

/// The number of keys.
const KEYS: usize = 16_384;

/// How many keys are sorted at a time.
const SORTED: usize = 512;

/// The size of a buffer in which any key fits, in bytes.
const MOST: usize = 256;

pub fn run(
    alloc: Global,
    random: &mut Random,
    rounds: u32,
    digest: &mut Digest,
) -> Result<(), AllocError> {
    let mut pool = keys(alloc, random)?;
    for round in 0..rounds {
        pool.renew(round);
        let mut first = 0;
        for _ in 0..KEYS / SORTED {
            let texts = read(alloc, &pool, first)?;
            write_sorted(alloc, &texts, digest)?;
            first = first.wrapping_add(SORTED);
        }
        decode_to_buffer(&pool, digest);
    }
    Ok(())
}

/// Decodes `SORTED` keys, from the index `first` on.
fn read(alloc: Global, pool: &Pool, first: usize) -> Result<Vec<CowText<'_>>, AllocError> {
    let mut texts = Vec::new(alloc);
    for place in 0..SORTED {
        if let Ok(text) = decode_strict(alloc, pool.piece(first.wrapping_add(place))) {
            texts.push(text)?;
        }
    }
    Ok(texts)
}

/// Sorts texts and encodes them: half of them to one buffer, and each of the others by itself.
fn write_sorted(
    alloc: Global,
    texts: &Vec<CowText<'_>>,
    digest: &mut Digest,
) -> Result<(), AllocError> {
    let mut sorted = Vec::new(alloc);
    for text in texts.as_slice() {
        sorted.push(text.as_str())?;
    }
    sorted.sort_unstable_by(|text, other| compare_as_utf16(text, other));
    let mut written = Vec::new(alloc);
    for (place, text) in sorted.as_slice().iter().enumerate() {
        if place % 2 == 0 {
            encode_into(text, &mut written)?;
        } else {
            digest.add_bytes(encode(alloc, text)?.as_bytes());
        }
    }
    digest.add_bytes(written.as_slice());
    Ok(())
}

/// Decodes all keys, each to the same buffer, as a search through them does.
fn decode_to_buffer(pool: &Pool, digest: &mut Digest) {
    let mut buffer = [0; MOST];
    for index in 0..pool.len() {
        match decode_strict_to_slice(pool.piece(index), &mut buffer) {
            Ok(length) if length <= MOST => digest.add_bytes(&buffer[..length]),
            _ => digest.add(1),
        }
    }
}

/// Makes the keys, of some 6 to 116 bytes, mostly 20 to 70. Between `before` and `after` are the
/// letters that each round changes.
fn keys(alloc: Global, random: &mut Random) -> Result<Pool, AllocError> {
    let mut pool = Pool::new(alloc);
    for _ in 0..KEYS {
        let mut before = String::new(alloc);
        let mut after = String::new(alloc);
        let script = match random.below(3) {
            0 => Script::Ascii,
            _ => Script::of_any_language(random),
        };
        let bytes = random.within(2, 60) as usize;
        let emoji_in = if random.one_in(25) { 4 } else { 0 };
        push_words(random, script, bytes / 3, 0, &mut before)?;
        push_words(random, script, bytes - bytes / 3, emoji_in, &mut after)?;
        let before = encode(alloc, before.as_str())?;
        let after = encode(alloc, after.as_str())?;
        pool.push(before.as_bytes(), after.as_bytes())?;
    }
    Ok(pool)
}
