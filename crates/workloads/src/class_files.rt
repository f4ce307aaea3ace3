//! Reads all strings of class files. A jar has hundreds of thousands of short constants, one after
//! another, nearly all of them ASCII.

use crate::digest::Digest;
use crate::pool::Pool;
use crate::random::Random;
use crate::scripts::{Script, push_emoji, push_word, push_words};
use java_text::read_utf;
use simd_cesu8::mutf8;
use std::alloc::{AllocError, Global};

/// The number of strings.
const STRINGS: usize = 50_000;

pub fn run(
    alloc: Global,
    random: &mut Random,
    rounds: u32,
    digest: &mut Digest,
) -> Result<(), AllocError> {
    let mut pool = strings(alloc, random)?;
    for round in 0..rounds {
        pool.renew(round);
        read_all(alloc, &pool, digest);
    }
    Ok(())
}

/// Reads the strings one after another.
fn read_all(alloc: Global, pool: &Pool, digest: &mut Digest) {
    let mut rest = pool.bytes();
    for _ in 0..pool.len() {
        match read_utf(alloc, rest) {
            Ok((text, behind)) => {
                digest.add_bytes(text.as_str().as_bytes());
                rest = behind;
            }
            Err(_) => {
                digest.add(1);
                return;
            }
        }
    }
}

/// Makes the strings. Between `before` and `after` are the letters that each round changes.
fn strings(alloc: Global, random: &mut Random) -> Result<Pool, AllocError> {
    let mut pool = Pool::new(alloc);
    for _ in 0..STRINGS {
        let mut before = String::new(alloc);
        let mut after = String::new(alloc);
        if random.one_in(333) {
            push_resource(random, &mut after)?;
        } else {
            push_constant(random, &mut before, &mut after)?;
        }
        let before = mutf8::encode(alloc, before.as_str())?;
        let after = mutf8::encode(alloc, after.as_str())?;
        pool.push_form(before.as_bytes(), after.as_bytes())?;
    }
    Ok(pool)
}

/// Appends an ASCII constant: the name of a member or a class, a descriptor or a message.
fn push_constant(
    random: &mut Random,
    before: &mut String,
    after: &mut String,
) -> Result<(), AllocError> {
    match random.below(20) {
        0..=8 => push_name(random, after),
        9..=13 => push_class(random, before),
        14..=17 => {
            before.push('(')?;
            for _ in 0..random.below(3) {
                before.push('L')?;
                push_class(random, before)?;
                before.push(';')?;
            }
            before.push_str(")L")?;
            push_class(random, after)?;
            after.push(';')
        }
        _ => {
            let bytes = random.within(8, 160) as usize;
            push_words(random, Script::Ascii, bytes, 0, after)
        }
    }
}

/// Appends a name such as `getValue`.
fn push_name(random: &mut Random, out: &mut String) -> Result<(), AllocError> {
    for _ in 0..random.below(3) {
        let letters = random.within(2, 8);
        push_word(random, Script::Ascii, letters, out)?;
        out.push('T')?;
    }
    Ok(())
}

/// Appends the name of a class, such as `java/util/List`.
fn push_class(random: &mut Random, out: &mut String) -> Result<(), AllocError> {
    for _ in 0..random.within(1, 3) {
        let letters = random.within(3, 7);
        push_word(random, Script::Ascii, letters, out)?;
        out.push('/')?;
    }
    push_name(random, out)
}

/// Appends a text that is not ASCII: in another language, with an emoji, or with U+0000.
fn push_resource(random: &mut Random, out: &mut String) -> Result<(), AllocError> {
    let bytes = random.within(6, 60) as usize;
    match random.below(8) {
        0 => {
            push_emoji(random, out)?;
            push_words(random, Script::Ascii, bytes, 0, out)
        }
        1 => {
            out.push('\0')?;
            push_words(random, Script::Ascii, bytes, 0, out)
        }
        2..=4 => push_words(random, Script::Latin, bytes, 0, out),
        5 => push_words(random, Script::Japanese, bytes, 0, out),
        _ => push_words(random, Script::Chinese, bytes, 0, out),
    }
}
