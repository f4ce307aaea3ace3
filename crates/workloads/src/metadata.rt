//! Decodes and encodes the metadata that the compilers of Kotlin and Scala pack into strings of
//! class files: long strings, in which many characters are U+0000 or have two bytes.

use crate::digest::Digest;
use crate::pool::Pool;
use crate::random::Random;
use java_text::{read_utf, write_utf};
use simd_cesu8::mutf8;
use std::alloc::{AllocError, Global};

/// The number of strings.
const STRINGS: usize = 64;

pub fn run(
    alloc: Global,
    random: &mut Random,
    rounds: u32,
    digest: &mut Digest,
) -> Result<(), AllocError> {
    let mut pool = strings(alloc, random)?;
    for round in 0..rounds {
        pool.renew(round);
        copy_all(alloc, &pool, digest)?;
    }
    Ok(())
}

/// Decodes the strings one after another, and encodes all of them to one buffer. A failed read adds
/// 1 to the digest, and a failed write 2.
fn copy_all(alloc: Global, pool: &Pool, digest: &mut Digest) -> Result<(), AllocError> {
    let mut written = Vec::new(alloc);
    let mut rest = pool.bytes();
    for _ in 0..pool.len() {
        let Ok((text, behind)) = read_utf(alloc, rest) else {
            digest.add(1);
            break;
        };
        digest.add_bytes(text.as_str().as_bytes());
        if write_utf(text.as_str(), &mut written).is_err() {
            digest.add(2);
        }
        rest = behind;
    }
    digest.add_bytes(written.as_slice());
    Ok(())
}

/// Makes the strings, of 1 to 33 KB. Between `before` and `after` are the letters that each round
/// changes.
fn strings(alloc: Global, random: &mut Random) -> Result<Pool, AllocError> {
    let mut pool = Pool::new(alloc);
    for _ in 0..STRINGS {
        let length = random.of_any_size(750, 5);
        let mut before = String::new(alloc);
        let mut after = String::new(alloc);
        push_packed(random, length / 3, &mut before)?;
        push_packed(random, length - length / 3, &mut after)?;
        let before = mutf8::encode(alloc, before.as_str())?;
        let after = mutf8::encode(alloc, after.as_str())?;
        pool.push_form(before.as_bytes(), after.as_bytes())?;
    }
    Ok(pool)
}

/// Appends `length` packed bytes, each as the character of that number. Most bytes are tags or
/// small numbers.
fn push_packed(random: &mut Random, length: u32, out: &mut String) -> Result<(), AllocError> {
    for _ in 0..length {
        let byte = match random.below(16) {
            0..=2 => 0,
            3..=8 => random.byte() & 0x1F,
            9..=13 => random.byte() & 0x7F,
            _ => random.byte() | 0x80,
        };
        out.push(char::from(byte))?;
    }
    Ok(())
}
