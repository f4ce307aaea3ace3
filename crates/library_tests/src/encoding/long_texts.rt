//! Long strings: characters that an encoding changes at each offset of ASCII, the repeated pattern,
//! and a hundred strings of the pattern's widths: characters of one, two, three and four bytes of
//! UTF-8, then U+0000, then characters of two, three and four, repeated.

use crate::asserts::{assert_of, assert_same_text, inserted};
use std::alloc::{AllocError, Global};
use std::ops::Range;
use std::process::Abort;
use std::str;
use test_cases::comparisons::{expect_encoding, expect_outcome};
use test_cases::decoders::{Decoder, Outcome};
use test_cases::fills::repeated;
use test_cases::flavors::{FLAVORS, Flavor, decoded_len, encode, encoded_len, lossy_len};
use test_cases::pattern::{PATTERN, encoded_pattern};
use test_cases::plain::encoded;

/// The test's ASCII has 91 different bytes, so that a lost, doubled or moved byte is seen: no loop
/// has a fixed step that is a multiple of 91 bytes.
const ASCII: &[u8] =
    b"!#$%&'()*+,-./0123456789:;<=>?@ABCDEFGHIJKLMNOPQRSTUVWXYZ[]^_`abcdefghijklmnopqrstuvwxyz{|}";

/// Asserts the encoding of ASCII of length `len`, with a character and its encoding inserted at one
/// offset.
fn assert_at(
    rt: &impl Abort,
    alloc: Global,
    flavor: Flavor,
    [character, changed]: [&[u8]; 2],
    (len, place): (usize, usize),
) {
    let utf8 = inserted(rt, alloc, (ASCII, len), character, place);
    let bytes = inserted(rt, alloc, (ASCII, len), changed, place);
    let text = str::from_utf8(&utf8).unwrap_or("");
    assert_same_text(rt, expect_encoding(alloc, flavor, text, &bytes), text);
}

/// Asserts the encodings of ASCII, with a character inserted at each offset.
fn assert_changed(rt: &impl Abort, alloc: Global, flavor: Flavor, character: &str) {
    let changed = encoded(alloc, flavor, character).expect(rt, "the encoding");
    let both = [character.as_bytes(), changed.as_slice()];
    for len in 0..101usize {
        for place in 0..len.wrapping_add(1) {
            assert_at(rt, alloc, flavor, both, (len, place));
        }
    }
}

/// U+0000 and characters of four bytes.
#[test]
fn encodes_a_changed_byte_at_every_place(rt: HostRuntime) {
    for flavor in FLAVORS {
        assert_changed(&rt, rt.alloc(), flavor, "\0");
        assert_changed(&rt, rt.alloc(), flavor, "\u{10000}");
        assert_changed(&rt, rt.alloc(), flavor, "\u{1F496}");
        assert_changed(&rt, rt.alloc(), flavor, "\u{10FFFF}");
    }
}

/// Whether the call returns a string's encoding.
fn is_encoded(alloc: Global, flavor: Flavor, text: &str, bytes: &[u8]) -> bool {
    match encode(alloc, flavor, text) {
        Ok(encoding) => encoding.as_bytes() == bytes,
        Err(_) => false,
    }
}

/// Asserts the encoding of a long string, and what the encoding is decoded to.
fn assert_both_ways(rt: &impl Abort, alloc: Global, flavor: Flavor, text: &str, bytes: &[u8]) {
    let lengths = (
        encoded_len(flavor, text) == bytes.len(),
        lossy_len(flavor, bytes) == Some(text.len()),
        decoded_len(flavor, bytes) == Some(text.len()),
    );
    assert_of(rt, lengths == (true, true, true), &(lengths, flavor));
    assert_of(rt, is_encoded(alloc, flavor, text, bytes), &flavor);
    for decoder in [Decoder::Strict, Decoder::Lenient] {
        let compared = expect_outcome(alloc, decoder, flavor, bytes, Outcome::Owned(text));
        assert_same_text(rt, compared, text);
    }
}

/// Encodes and decodes the pattern, repeated `times` times. The lengths are those in UTF-8 and in
/// the encoding.
fn assert_pattern(
    rt: &impl Abort,
    alloc: Global,
    flavor: Flavor,
    times: usize,
    lengths: (usize, usize),
) {
    let utf8 = repeated(alloc, PATTERN, times).expect(rt, "the pattern");
    let bytes = repeated(alloc, encoded_pattern(flavor), times).expect(rt, "its encoding");
    let measured = (utf8.len(), bytes.len());
    assert_of(rt, measured == lengths, &measured);
    assert_both_ways(
        rt,
        alloc,
        flavor,
        str::from_utf8(&utf8).unwrap_or(""),
        &bytes,
    );
}

#[test]
fn encodes_and_decodes_the_pattern(rt: HostRuntime) {
    assert_pattern(&rt, rt.alloc(), Flavor::Cesu8, 1, (20, 24));
    assert_pattern(&rt, rt.alloc(), Flavor::Cesu8, 819, (16_380, 19_656));
    assert_pattern(&rt, rt.alloc(), Flavor::Mutf8, 1, (20, 25));
    assert_pattern(&rt, rt.alloc(), Flavor::Mutf8, 819, (16_380, 20_475));
}

// The characters of each width, taken in turn. Any two of the lists' lengths are coprime. Each is
// also coprime to the number of characters that a string takes from the list, which is 819 for
// `ONE` and 1,638 for each other list. So no two strings are the same.
static ONE: [u32; 8] = [0x1, 0x9, 0xA, 0x20, 0x30, 0x41, 0x7A, 0x7F];

static TWO: [u32; 11] = [
    0x80, 0xA0, 0xE9, 0xFF, 0x100, 0x205, 0x3A9, 0x416, 0x5D0, 0x627, 0x7FF,
];

static THREE: [u32; 17] = [
    0x800, 0x905, 0xFFF, 0x1000, 0x1E9E, 0x20AC, 0x3042, 0x4E2D, 0xAC00, 0xCFFF, 0xD000, 0xD7FF,
    0xE000, 0xF8FF, 0xFEFF, 0xFFFD, 0xFFFF,
];

static FOUR: [u32; 19] = [
    0x10000, 0x103FF, 0x10400, 0x107FF, 0x1D11E, 0x1F496, 0x1F600, 0x1FFFF, 0x20000, 0x2A6DF,
    0x30000, 0x3FFFF, 0x40000, 0x7FFFF, 0x80000, 0xE0001, 0xFFFFF, 0x100000, 0x10FFFF,
];

/// The number of characters of a string: 819 groups of eight, which have 16,380 bytes of UTF-8.
const CHARACTERS: u32 = 8 * 819;

/// The scalar value with this number, if those of the list are taken in turn.
fn drawn(list: &[u32], number: usize) -> u32 {
    let place = number.checked_rem(list.len()).unwrap_or(0);
    list.get(place).copied().unwrap_or(0)
}

/// The scalar value with this number among those of all strings.
fn scalar_at(number: u32) -> u32 {
    let group = number as usize / 8;
    let first = group.wrapping_mul(2);
    let second = first.wrapping_add(1);
    match number % 8 {
        0 => drawn(&ONE, group),
        1 => drawn(&TWO, first),
        2 => drawn(&THREE, first),
        3 => drawn(&FOUR, first),
        4 => 0,
        5 => drawn(&TWO, second),
        6 => drawn(&THREE, second),
        _ => drawn(&FOUR, second),
    }
}

/// The string with this number.
fn text_at(alloc: Global, number: u32) -> Result<String, AllocError> {
    let mut text = String::new(alloc);
    let start = number.wrapping_mul(CHARACTERS);
    for place in 0..CHARACTERS {
        let scalar = scalar_at(start.wrapping_add(place));
        text.push(char::from_u32(scalar).unwrap_or('\0'))?;
    }
    Ok(text)
}

/// Encodes and decodes a string. The lengths are those in UTF-8 and in the encoding.
fn assert_text(
    rt: &impl Abort,
    alloc: Global,
    flavor: Flavor,
    text: &str,
    lengths: (usize, usize),
) {
    let bytes = encoded(alloc, flavor, text).expect(rt, "the encoding");
    let measured = (text.len(), bytes.len());
    assert_of(rt, measured == lengths, &measured);
    assert_both_ways(rt, alloc, flavor, text, &bytes);
}

/// Encodes and decodes the strings with these numbers.
fn assert_texts(rt: &impl Abort, alloc: Global, numbers: Range<u32>) {
    for number in numbers {
        let text = text_at(alloc, number).expect(rt, "a text");
        assert_text(rt, alloc, Flavor::Cesu8, &text, (16_380, 19_656));
        assert_text(rt, alloc, Flavor::Mutf8, &text, (16_380, 20_475));
    }
}

#[test]
fn encodes_and_decodes_texts_0_to_25(rt: HostRuntime) {
    assert_texts(&rt, rt.alloc(), 0..25);
}

#[test]
fn encodes_and_decodes_texts_25_to_50(rt: HostRuntime) {
    assert_texts(&rt, rt.alloc(), 25..50);
}

#[test]
fn encodes_and_decodes_texts_50_to_75(rt: HostRuntime) {
    assert_texts(&rt, rt.alloc(), 50..75);
}

#[test]
fn encodes_and_decodes_texts_75_to_100(rt: HostRuntime) {
    assert_texts(&rt, rt.alloc(), 75..100);
}
