//! The number of UTF-16 code units of a string.
//!
//! The lengths reach each path of the count: up to 64 bytes, whole vectors of 64 and a rest (to 144
//! bytes), and blocks of 1,024 bytes with rests of many lengths (to 4,400 bytes, and at 16,380).

use crate::asserts::{ascii_with, assert_of, text_of};
use std::alloc::Global;
use std::process::Abort;
use std::str;
use test_cases::borders::BORDERS;
use test_cases::fills::repeated;
use test_cases::pattern::PATTERN;

/// Asserts the number of code units that are counted in a string.
fn assert_counted(rt: &impl Abort, text: &str, units: usize) {
    let counted = simd_cesu8::utf16_len(text);
    assert_of(rt, counted == units, &(counted, units, text));
}

#[test]
fn counts_examples(rt: HostRuntime) {
    assert_counted(&rt, "", 0);
    assert_counted(&rt, "Hello, world!", 13);
    assert_counted(&rt, "a\0", 2);
    assert_counted(&rt, "\u{205}\u{20AC}", 2);
    assert_counted(&rt, "\u{10400}", 2);
    assert_counted(&rt, "a\u{10FFFF}", 3);
    assert_counted(&rt, "\0\0\u{1F496}\0", 5);
}

/// A scalar value below U+10000 has one code unit. The others, whose UTF-8 has four bytes, have
/// two.
#[test]
fn counts_the_borders(rt: HostRuntime) {
    for row in &BORDERS {
        let units = if row.utf8.len() == 4 { 2 } else { 1 };
        assert_counted(&rt, text_of(row), units);
    }
}

/// Asserts the number of code units that are counted in the pattern, repeated. It has eight
/// characters, two of which are surrogate pairs.
fn assert_pattern(rt: &impl Abort, alloc: Global, times: usize) {
    let utf8 = repeated(alloc, PATTERN, times).expect(rt, "the pattern");
    let text = str::from_utf8(&utf8).unwrap_or("");
    assert_counted(rt, text, times.wrapping_mul(10));
}

#[test]
fn counts_the_pattern(rt: HostRuntime) {
    for times in 0..221usize {
        assert_pattern(&rt, rt.alloc(), times);
    }
    assert_pattern(&rt, rt.alloc(), 819);
}

/// Asserts what is counted in ASCII of length `len`, with a character inserted at one offset.
fn assert_at(
    rt: &impl Abort,
    alloc: Global,
    (character, units): (&str, usize),
    len: usize,
    place: usize,
) {
    let utf8 = ascii_with(rt, alloc, len, character, place);
    let text = str::from_utf8(&utf8).unwrap_or("");
    assert_counted(rt, text, len.wrapping_add(units));
}

/// Characters, and the number of code units of each.
static CHARACTERS: [(&str, usize); 6] = [
    ("\0", 1),
    ("\u{7FF}", 1),
    ("\u{D7FF}", 1),
    ("\u{FFFF}", 1),
    ("\u{10000}", 2),
    ("\u{10FFFF}", 2),
];

#[test]
fn counts_a_character_at_every_place(rt: HostRuntime) {
    for row in &CHARACTERS {
        for len in 0..141usize {
            for place in 0..len.wrapping_add(1) {
                assert_at(&rt, rt.alloc(), *row, len, place);
            }
        }
    }
}
