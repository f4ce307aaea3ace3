//! Short strings, with each call that encodes or appends.

use crate::asserts::{assert_of, assert_same_text, text_of};
use std::alloc::Global;
use std::process::Abort;
use std::str;
use test_cases::borders::{BORDERS, Border};
use test_cases::comparisons::{expect_appended, expect_encoding};
use test_cases::flavors::{Flavor, encode_into};
use test_cases::plain::encoded;

/// Strings, and their bytes in CESU-8 and in MUTF-8.
static TEXTS: [(&str, [&[u8]; 2]); 10] = [
    ("", [b"", b""]),
    ("Hello, world!", [b"Hello, world!", b"Hello, world!"]),
    ("E", [b"E", b"E"]),
    ("a\0", [b"a\0", b"a\xC0\x80"]),
    ("\u{205}", [b"\xC8\x85", b"\xC8\x85"]),
    ("\u{20AC}", [b"\xE2\x82\xAC", b"\xE2\x82\xAC"]),
    ("\u{10400}", [b"\xED\xA0\x81\xED\xB0\x80"; 2]),
    ("a\u{1F496}", [b"a\xED\xA0\xBD\xED\xB2\x96"; 2]),
    ("a\u{10FFFF}", [b"a\xED\xAF\xBF\xED\xBF\xBF"; 2]),
    (
        "\0\0\u{1F496}\0",
        [
            b"\0\0\xED\xA0\xBD\xED\xB2\x96\0",
            b"\xC0\x80\xC0\x80\xED\xA0\xBD\xED\xB2\x96\xC0\x80",
        ],
    ),
];

/// Asserts what the calls build and append for a string, in one encoding.
fn assert_text(rt: &impl Abort, alloc: Global, flavor: Flavor, text: &str, bytes: &[u8]) {
    assert_same_text(rt, expect_encoding(alloc, flavor, text, bytes), text);
    let appended = expect_appended(alloc, flavor, b"\x01\x02", text, bytes);
    assert_same_text(rt, appended, text);
}

#[test]
fn encodes_texts(rt: HostRuntime) {
    for (text, [cesu8, mutf8]) in &TEXTS {
        assert_text(&rt, rt.alloc(), Flavor::Cesu8, text, cesu8);
        assert_text(&rt, rt.alloc(), Flavor::Mutf8, text, mutf8);
    }
}

/// Asserts what the calls build for a scalar value, in one encoding.
fn assert_border(rt: &impl Abort, alloc: Global, flavor: Flavor, border: &Border) {
    let compared = expect_encoding(alloc, flavor, text_of(border), border.encoded(flavor));
    assert_same_text(rt, compared, border.name);
}

#[test]
fn encodes_the_borders(rt: HostRuntime) {
    for row in &BORDERS {
        assert_border(&rt, rt.alloc(), Flavor::Cesu8, row);
        assert_border(&rt, rt.alloc(), Flavor::Mutf8, row);
    }
}

/// Strings, and their bytes in CESU-8.
static APPENDED: [(&str, &[u8]); 4] = [
    ("E", b"E"),
    ("\u{205}", b"\xC8\x85"),
    ("\u{20AC}", b"\xE2\x82\xAC"),
    ("\u{10400}", b"\xED\xA0\x81\xED\xB0\x80"),
];

#[test]
fn appends_to_a_cleared_buffer(rt: HostRuntime) {
    let mut buf = Vec::new(rt.alloc());
    for (text, bytes) in &APPENDED {
        let is_done = encode_into(Flavor::Cesu8, text, &mut buf).is_ok();
        assert_of(&rt, is_done && buf.as_slice() == *bytes, text);
        buf.clear();
    }
}

/// Appends a text to a buffer. Returns 1 if the capacity changed, and `None` if memory runs out.
fn requests(buf: &mut Vec<u8>) -> Option<u32> {
    let before = buf.capacity();
    encode_into(Flavor::Mutf8, "a\u{1F496}", buf).ok()?;
    Some(u32::from(buf.capacity() != before))
}

/// Each allocation changes the capacity, so counting the changes counts the allocations. A thousand
/// small ones would be slow. A buffer that doubles its capacity makes about ten.
#[test]
fn makes_few_requests(rt: HostRuntime) {
    let mut buf = Vec::new(rt.alloc());
    let mut all: u32 = 0;
    for _call in 0..1_000 {
        // A call that runs out of memory counts as 21, more than the test allows.
        all = all.saturating_add(requests(&mut buf).unwrap_or(21));
    }
    assert_of(&rt, buf.len() == 7_000 && all <= 20, &(buf.len(), all));
}

/// Asserts the encodings of a string of two bytes.
fn assert_encoded(rt: &impl Abort, alloc: Global, flavor: Flavor, text: &str) {
    let bytes = encoded(alloc, flavor, text).expect(rt, "the encoding");
    assert_same_text(rt, expect_encoding(alloc, flavor, text, &bytes), text);
}

/// Asserts the encodings of two bytes if they are UTF-8, and returns whether they are.
fn assert_if_text(rt: &impl Abort, alloc: Global, pair: u16) -> bool {
    match str::from_utf8(&pair.to_be_bytes()) {
        Ok(text) => {
            assert_encoded(rt, alloc, Flavor::Cesu8, text);
            assert_encoded(rt, alloc, Flavor::Mutf8, text);
            true
        }
        Err(_) => false,
    }
}

/// All strings whose UTF-8 has two bytes: 128 times 128 pairs of ASCII, and 30 lead bytes with 64
/// continuation bytes each.
#[test]
fn encodes_two_bytes(rt: HostRuntime) {
    let mut texts = 0u32;
    for pair in 0..=u16::MAX {
        let is_text = assert_if_text(&rt, rt.alloc(), pair);
        texts = texts.wrapping_add(u32::from(is_text));
    }
    assert_of(&rt, texts == 18_304, &texts);
}
