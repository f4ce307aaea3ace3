//! A table of valid and damaged input, decoded by each call.

use crate::asserts::{assert_of, assert_same, is_text, text_of};
use std::alloc::{AllocError, Global};
use std::process::Abort;
use test_cases::borders::{BORDERS, Border};
use test_cases::comparisons::expect_reading;
use test_cases::flavors::{Flavor, decode_strict};
use test_cases::plain::Reading;

/// Input with the same reading in both encodings: a number of U+FFFD, a text, and a number of
/// U+FFFD. If both numbers are 0, the input is the encoding of the text.
pub static ROWS: [(&[u8], usize, &str, usize); 37] = [
    (b"", 0, "", 0),
    (b"Hello, world!", 0, "Hello, world!", 0),
    (b"\xC8\x85\xE2\x82\xAC", 0, "\u{205}\u{20AC}", 0),
    (b"\xC2\x80A", 0, "\u{80}A", 0),
    // Bytes that are part of no character, before, between and after characters.
    (b"\x80", 1, "", 0),
    (b"\xC0A", 1, "A", 0),
    (b"\xC0\x81", 2, "", 0),
    (b"\xC1\xBF", 2, "", 0),
    (b"\xC2", 1, "", 0),
    (b"\xC2\xC2\x80", 1, "\u{80}", 0),
    (b"\xE0\x80\x80", 3, "", 0),
    (b"\xE0\x9F\xBF", 3, "", 0),
    (b"\xE2\x82", 2, "", 0),
    (b"\xE2\x82A", 2, "A", 0),
    (b"\xE2\x82\xE2\x82\xAC", 2, "\u{20AC}", 0),
    (b"\xF8", 1, "", 0),
    (b"\xFFA\xFF", 1, "A", 1),
    // UTF-8 of four bytes, which a lenient call accepts, and the same bytes in input that is not
    // UTF-8.
    (b"\xF0\x9F\x92\x96", 4, "", 0),
    (b"\xF0\x9F\x92\x96\xFF", 5, "", 0),
    (b"\xFF\xF0\x9F\x92\x96", 5, "", 0),
    (
        b"\xF0\x9F\x92\x96\xED\xA0\xBD\xED\xB2\x96",
        4,
        "\u{1F496}",
        0,
    ),
    // Unpaired surrogates, also next to a pair.
    (b"\xED\xB2\x96\xED\xA0\xBD", 6, "", 0),
    (b"\xED\xA0\xBD\xED\xA0\xBD", 6, "", 0),
    (b"\xED\xA0\xBD\xED\xA0\xBD\xED\xB2\x96", 3, "\u{1F496}", 0),
    (b"\xED\xA0\xBDa\xED\xA0\xBD", 3, "a", 3),
    (b"\xED\xA0\xBDA\xED\xB2\x96", 3, "A", 3),
    // The pair ED A0 BD ED B2 96 with one byte changed or left out.
    (b"\xEC\xA0\xBD\xED\xB2\x96", 0, "\u{C83D}", 3),
    (b"\xED\x9F\xBD\xED\xB2\x96", 0, "\u{D7FD}", 3),
    (b"\xED\xB0\xBD\xED\xB2\x96", 6, "", 0),
    (b"\xED\xA0\xBD\xEC\xB2\x96", 3, "\u{CC96}", 0),
    (b"\xED\xA0\xBD\xED\xAF\x96", 6, "", 0),
    (b"\xED\xA0\xBD\xED\x9F\x96", 3, "\u{D7D6}", 0),
    (b"\xED\xA0\x41\xED\xB2\x96", 2, "A", 3),
    (b"\xED\xA0\xBD\xED\xB2\x41", 5, "A", 0),
    (b"\xED\xA0\xBD\xED\xB2\xC0", 6, "", 0),
    (b"\xED\xA0\xBD\xED\xB2", 5, "", 0),
    (b"\xA0\xBD\xED\xB2\x96", 5, "", 0),
];

/// Appends U+FFFD `count` times.
fn push_marks(text: &mut String, count: usize) -> Result<(), AllocError> {
    for _mark in 0..count {
        text.push('\u{FFFD}')?;
    }
    Ok(())
}

/// A text between two numbers of U+FFFD.
fn marked(alloc: Global, before: usize, text: &str, after: usize) -> Result<String, AllocError> {
    let mut marked = String::new(alloc);
    push_marks(&mut marked, before)?;
    marked.push_str(text)?;
    push_marks(&mut marked, after)?;
    Ok(marked)
}

/// Asserts that each call returns this reading, in one encoding.
fn assert_read(rt: &impl Abort, alloc: Global, flavor: Flavor, bytes: &[u8], reading: &Reading) {
    assert_same(rt, expect_reading(alloc, flavor, bytes, reading), bytes);
}

/// Asserts that each call returns the reading of a row, in both encodings.
fn assert_row(
    rt: &impl Abort,
    alloc: Global,
    bytes: &[u8],
    (before, text, after): (usize, &str, usize),
) {
    let reading = Reading {
        text: marked(alloc, before, text, after).expect(rt, "the text"),
        damaged: before.wrapping_add(after),
        valid: if before > 0 {
            0
        } else {
            bytes.len().saturating_sub(after)
        },
    };
    assert_read(rt, alloc, Flavor::Cesu8, bytes, &reading);
    assert_read(rt, alloc, Flavor::Mutf8, bytes, &reading);
}

#[test]
fn reads_rows(rt: HostRuntime) {
    for (bytes, before, text, after) in &ROWS {
        assert_row(&rt, rt.alloc(), bytes, (*before, text, *after));
    }
}

/// If a surrogate pair is cut in two, each byte of each part is replaced by U+FFFD.
#[test]
fn reads_cuts_of_a_pair(rt: HostRuntime) {
    let pair = b"\xED\xA0\xBD\xED\xB2\x96";
    for place in 1..6usize {
        let (front, back) = pair.split_at(place);
        assert_row(&rt, rt.alloc(), front, (front.len(), "", 0));
        assert_row(&rt, rt.alloc(), back, (back.len(), "", 0));
    }
}

/// Input with a different reading in each encoding, or with damage between characters: its text in
/// CESU-8 and in MUTF-8, the number of damaged bytes, and the number of bytes before the first of
/// them.
static APART: [(&[u8], [&str; 2], [usize; 2], [usize; 2]); 9] = [
    (b"\0", ["\0", "\u{FFFD}"], [0, 1], [1, 0]),
    (
        b"\0\0\0",
        ["\0\0\0", "\u{FFFD}\u{FFFD}\u{FFFD}"],
        [0, 3],
        [3, 0],
    ),
    (b"A\0B", ["A\0B", "A\u{FFFD}B"], [0, 1], [3, 1]),
    (b"\xC0\x80", ["\u{FFFD}\u{FFFD}", "\0"], [2, 0], [0, 2]),
    (
        b"\xC2\xC0\x80",
        ["\u{FFFD}\u{FFFD}\u{FFFD}", "\u{FFFD}\0"],
        [3, 1],
        [0, 0],
    ),
    (
        b"\xC0\xC0\x80",
        ["\u{FFFD}\u{FFFD}\u{FFFD}", "\u{FFFD}\0"],
        [3, 1],
        [0, 0],
    ),
    (
        b"\0\xC0\x80",
        ["\0\u{FFFD}\u{FFFD}", "\u{FFFD}\0"],
        [2, 1],
        [1, 0],
    ),
    (
        b"\xC0\x80\xEF\xBF\xBD",
        ["\u{FFFD}\u{FFFD}\u{FFFD}", "\0\u{FFFD}"],
        [2, 0],
        [0, 5],
    ),
    (
        b"a\xED\xA0\xBD\xED\xA0\xBD\xED\xB2\x96",
        ["a\u{FFFD}\u{FFFD}\u{FFFD}\u{1F496}"; 2],
        [3; 2],
        [1; 2],
    ),
];

/// Asserts that each call returns a row's reading, in one encoding.
fn assert_apart(
    rt: &impl Abort,
    alloc: Global,
    flavor: Flavor,
    bytes: &[u8],
    (text, damaged, valid): (&str, usize, usize),
) {
    let reading = Reading {
        text: marked(alloc, 0, text, 0).expect(rt, "the text"),
        damaged,
        valid,
    };
    assert_read(rt, alloc, flavor, bytes, &reading);
}

#[test]
fn reads_each_encoding(rt: HostRuntime) {
    for (bytes, texts, damaged, valid) in &APART {
        let cesu8 = (texts[0], damaged[0], valid[0]);
        assert_apart(&rt, rt.alloc(), Flavor::Cesu8, bytes, cesu8);
        let mutf8 = (texts[1], damaged[1], valid[1]);
        assert_apart(&rt, rt.alloc(), Flavor::Mutf8, bytes, mutf8);
    }
}

/// Whether `into_string` returns this text for bytes that are decoded.
fn is_copied(alloc: Global, flavor: Flavor, bytes: &[u8], text: &str) -> bool {
    match decode_strict(alloc, flavor, bytes) {
        Ok(decoded) => is_text(decoded.into_string(alloc), text),
        Err(_) => false,
    }
}

/// Asserts that a scalar value is decoded, and that `into_string` returns it.
fn assert_border(rt: &impl Abort, alloc: Global, flavor: Flavor, border: &Border) {
    let bytes = border.encoded(flavor);
    let text = text_of(border);
    assert_apart(rt, alloc, flavor, bytes, (text, 0, bytes.len()));
    assert_of(rt, is_copied(alloc, flavor, bytes, text), &bytes);
}

#[test]
fn reads_the_borders(rt: HostRuntime) {
    for row in &BORDERS {
        assert_border(&rt, rt.alloc(), Flavor::Cesu8, row);
        assert_border(&rt, rt.alloc(), Flavor::Mutf8, row);
    }
}
