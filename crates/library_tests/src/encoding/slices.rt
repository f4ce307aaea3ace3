//! Encoding to buffers of each length up to one byte more than is needed.

use crate::asserts::{ascii_with, assert_same_text, text_of};
use std::alloc::Global;
use std::ops::Range;
use std::process::Abort;
use std::str;
use test_cases::borders::{BORDERS, Border};
use test_cases::fills::repeated;
use test_cases::flavors::{FLAVORS, Flavor};
use test_cases::pattern::{PATTERN, encoded_pattern};
use test_cases::plain::encoded;
use test_cases::slices::{SliceCall, expect_in_rooms};

/// Asserts what the call leaves in each buffer.
fn assert_in_each_room(rt: &impl Abort, alloc: Global, flavor: Flavor, text: &str, bytes: &[u8]) {
    let rooms = 0..bytes.len().saturating_add(2);
    let compared = expect_in_rooms(alloc, flavor, SliceCall::Encode(text), Some(bytes), rooms);
    assert_same_text(rt, compared, text);
}

/// Asserts what the call leaves for a scalar value, in one encoding.
fn assert_border(rt: &impl Abort, alloc: Global, flavor: Flavor, border: &Border) {
    assert_in_each_room(rt, alloc, flavor, text_of(border), border.encoded(flavor));
}

#[test]
fn encodes_the_borders(rt: HostRuntime) {
    for row in &BORDERS {
        assert_border(&rt, rt.alloc(), Flavor::Cesu8, row);
        assert_border(&rt, rt.alloc(), Flavor::Mutf8, row);
    }
}

/// Lengths near those at which the encoder changes its strategy.
static LENGTHS: [usize; 23] = [
    0, 1, 3, 15, 28, 29, 31, 32, 33, 59, 60, 61, 63, 64, 65, 96, 123, 125, 127, 128, 129, 160, 200,
];

/// Asserts what the call leaves for a string, in one encoding.
fn assert_encoded(rt: &impl Abort, alloc: Global, flavor: Flavor, text: &str) {
    let bytes = encoded(alloc, flavor, text).expect(rt, "the encoding");
    assert_in_each_room(rt, alloc, flavor, text, &bytes);
}

/// ASCII of length `len`, with a character at one offset.
fn assert_at(rt: &impl Abort, alloc: Global, len: usize, character: &str, place: usize) {
    let utf8 = ascii_with(rt, alloc, len, character, place);
    let text = str::from_utf8(&utf8).unwrap_or("");
    assert_encoded(rt, alloc, Flavor::Cesu8, text);
    assert_encoded(rt, alloc, Flavor::Mutf8, text);
}

/// ASCII of length `len`, with a character before it, inside it and after it.
fn assert_among_ascii(rt: &impl Abort, alloc: Global, len: usize, character: &str) {
    assert_at(rt, alloc, len, character, 0);
    assert_at(rt, alloc, len, character, len / 2);
    assert_at(rt, alloc, len, character, len);
}

#[test]
fn encodes_characters_among_ascii(rt: HostRuntime) {
    for len in &LENGTHS {
        assert_among_ascii(&rt, rt.alloc(), *len, "");
        assert_among_ascii(&rt, rt.alloc(), *len, "\0");
        assert_among_ascii(&rt, rt.alloc(), *len, "\u{1F496}");
    }
}

/// Asserts what the call leaves for 819 patterns, which have 16,380 bytes of UTF-8, in buffers of
/// these lengths.
fn assert_pattern(rt: &impl Abort, alloc: Global, flavor: Flavor, rooms: Range<usize>) {
    let utf8 = repeated(alloc, PATTERN, 819).expect(rt, "the pattern");
    let bytes = repeated(alloc, encoded_pattern(flavor), 819).expect(rt, "its encoding");
    let call = SliceCall::Encode(str::from_utf8(&utf8).unwrap_or(""));
    let compared = expect_in_rooms(alloc, flavor, call, Some(&bytes), rooms);
    assert_same_text(rt, compared, "the pattern");
}

/// The results have 19,656 and 20,475 bytes. A buffer is empty, or has about as many.
#[test]
fn encodes_the_pattern(rt: HostRuntime) {
    for flavor in FLAVORS {
        assert_pattern(&rt, rt.alloc(), flavor, 0..1);
    }
    assert_pattern(&rt, rt.alloc(), Flavor::Cesu8, 19_655..19_658);
    assert_pattern(&rt, rt.alloc(), Flavor::Mutf8, 20_474..20_477);
}
