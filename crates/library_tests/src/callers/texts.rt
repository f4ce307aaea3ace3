//! Round trips of texts, texts in one buffer, and calls that predict the results of others.

use crate::asserts::{assert_of, is_bytes, is_text};
use java_text::WriteFault;
use std::alloc::Global;
use std::str;
use test_cases::fills::repeated;
use uses::{
    append_all, append_and_encode, compares_as_keys, decode_and_encode, decodes_to_same,
    encode_and_decode, encode_and_read, key_without_zero, needs_or_borrows, tells_decoded_length,
    tells_encoded_length, tells_lossy_length, write_and_read,
};

/// Whether a buffer holds these bytes after the texts are appended to it.
fn is_appended(texts: &[&str], buf: &mut Vec<u8>, want: &[u8]) -> bool {
    append_all(texts, buf).is_ok() && buf.as_slice() == want
}

#[test]
fn appends_all_texts(rt: HostRuntime) {
    let mut buf = Vec::new(rt.alloc());
    let want = b"id=\xED\xA0\xBD\xED\xB2\x96\x00\xE2\x82\xAC";
    let texts = ["id", "=", "", "\u{1F496}\0"];
    assert!(rt; is_appended(&texts, &mut buf, &want[..10]));
    // No clause says that the capacity is exact.
    assert!(rt; buf.capacity() == 10);
    assert!(rt; is_appended(&[], &mut buf, &want[..10]));
    assert!(rt; is_appended(&["\u{20AC}"], &mut buf, want));
}

/// Texts of each length of an encoded character.
static TEXTS: [&str; 5] = [
    "",
    "a\0",
    "\u{7FF}",
    "\u{20AC}\u{FFFF}",
    "a\u{1F496}\u{10FFFF}",
];

/// Whether a text is given back.
fn is_given_back(alloc: Global, text: &str) -> bool {
    is_text(encode_and_decode(alloc, text), text)
        && is_text(encode_and_read(alloc, text), text)
        && is_text(write_and_read(alloc, text, b"\xFF"), text)
}

#[test]
fn gives_back_what_went_in(rt: HostRuntime) {
    for text in &TEXTS {
        assert_of(&rt, is_given_back(rt.alloc(), text), text);
    }
    let bytes = b"a\xED\xA0\xBD\xED\xB2\x96";
    assert!(rt; is_bytes(decode_and_encode(rt.alloc(), bytes), bytes));
    assert!(rt; decode_and_encode(rt.alloc(), b"\xF0\x9F\x92\x96").is_err());
}

/// Whether a text has no form because its MUTF-8 is this long.
fn is_too_long(alloc: Global, text: &str, len: usize) -> bool {
    match write_and_read(alloc, text, b"") {
        Err(WriteFault::TooLong(given)) => given == len,
        _ => false,
    }
}

/// Whether 32,768 nulls are too long.
fn rejects_nulls(alloc: Global) -> bool {
    match repeated(alloc, b"\0", 32_768) {
        Ok(nulls) => is_too_long(alloc, str::from_utf8(&nulls).unwrap_or(""), 65_536),
        Err(_) => false,
    }
}

#[test]
fn rejects_what_has_no_form(rt: HostRuntime) {
    assert!(rt; rejects_nulls(rt.alloc()));
}

#[test]
fn makes_keys(rt: HostRuntime) {
    let key = key_without_zero(rt.alloc(), "a\0\u{1F496}");
    assert!(rt; is_bytes(key, b"a\xC0\x80\xED\xA0\xBD\xED\xB2\x96"));
}

/// Whether each function of `uses` that compares the results of two calls returns true.
fn is_told(alloc: Global, text: &str) -> bool {
    compares_as_keys(alloc, text, "\u{FFFF}") == Ok(true)
        && decodes_to_same(alloc, text) == Ok(true)
        && needs_or_borrows(alloc, text) == Ok(true)
        && tells_decoded_length(alloc, text.as_bytes()) == Ok(true)
        && tells_encoded_length(alloc, text) == Ok(true)
        && tells_lossy_length(alloc, text.as_bytes()) == Ok(true)
}

/// Whether a text is encoded, and also appended to a buffer that holds one byte.
fn encodes_twice(alloc: Global) -> bool {
    let Ok(mut buf) = Vec::from_slice(alloc, b"=") else {
        return false;
    };
    let encoded = append_and_encode(alloc, "\u{10400}", &mut buf);
    is_bytes(encoded, b"\xED\xA0\x81\xED\xB0\x80")
        && buf.as_slice() == b"=\xED\xA0\x81\xED\xB0\x80".as_slice()
}

#[test]
fn tells_what_other_calls_return(rt: HostRuntime) {
    for text in &TEXTS {
        assert_of(&rt, is_told(rt.alloc(), text), text);
    }
    assert!(rt; encodes_twice(rt.alloc()));
}
