//! Converts dumps of a database from CESU-8 to UTF-8 and back, whole and line by line: one mostly
//! ASCII and one mostly Chinese, with an emoji now and then.

use crate::digest::Digest;
use crate::pool::Pool;
use crate::random::Random;
use crate::scripts::{Script, push_words};
use simd_cesu8::{decode, encode};
use std::alloc::{AllocError, Global};

/// The number of lines of each dump.
const LINES: usize = 16_384;

pub fn run(
    alloc: Global,
    random: &mut Random,
    rounds: u32,
    digest: &mut Digest,
) -> Result<(), AllocError> {
    let mut ascii = dump(alloc, random, Script::Ascii)?;
    let mut chinese = dump(alloc, random, Script::Chinese)?;
    for round in 0..rounds {
        convert_all(alloc, &mut ascii, round, digest)?;
        convert_all(alloc, &mut chinese, round, digest)?;
    }
    Ok(())
}

/// Converts a dump, in every second round line by line and otherwise as a whole.
fn convert_all(
    alloc: Global,
    dump: &mut Pool,
    round: u32,
    digest: &mut Digest,
) -> Result<(), AllocError> {
    dump.renew(round);
    if round % 2 == 0 {
        return convert(alloc, dump.bytes(), digest);
    }
    for index in 0..dump.len() {
        convert(alloc, dump.piece(index), digest)?;
    }
    Ok(())
}

/// Decodes the bytes, and encodes the text again.
fn convert(alloc: Global, bytes: &[u8], digest: &mut Digest) -> Result<(), AllocError> {
    let Ok(text) = decode(alloc, bytes) else {
        digest.add(1);
        return Ok(());
    };
    digest.add_bytes(text.as_str().as_bytes());
    digest.add_bytes(encode(alloc, text.as_str())?.as_bytes());
    Ok(())
}

/// Makes a dump of lines of some 80 to 340 bytes. Between `before` and `after` are the letters that
/// each round changes.
fn dump(alloc: Global, random: &mut Random, script: Script) -> Result<Pool, AllocError> {
    let mut pool = Pool::new(alloc);
    for _ in 0..LINES {
        let mut before = String::new(alloc);
        let mut after = String::new(alloc);
        let bytes = random.within(76, 290) as usize;
        // With some six characters a word, a line has one emoji in 60 to 500 characters.
        let emoji_in = random.within(10, 80);
        push_words(random, script, bytes / 4, emoji_in, &mut before)?;
        push_words(random, script, bytes - bytes / 4, emoji_in, &mut after)?;
        after.push('\n')?;
        let before = encode(alloc, before.as_str())?;
        let after = encode(alloc, after.as_str())?;
        pool.push(before.as_bytes(), after.as_bytes())?;
    }
    Ok(pool)
}
