//! No call that builds or copies gives up while there is memory, whatever the length of its input.
//! The contract of such a call lets it run out of memory at any time. So no proof rejects a call
//! that returns this error for some length although there is memory.

use crate::asserts::assert_of;
use java_text::{
    read_utf, read_utf_lossy, read_utf_lossy_to_slice, read_utf_to_slice, write_utf,
    write_utf_to_slice,
};
use std::alloc::{AllocError, Global};
use std::ops::RangeInclusive;
use std::process::Abort;
use std::str;
use test_cases::decoders::{DECODERS, Decoder};
use test_cases::fills::{filled, joined};
use test_cases::flavors::{
    FLAVORS, Flavor, counted, decode_strict_front, encode, encode_into, encode_to_slice,
};
use test_cases::slices::SliceCall;

/// ASCII, to fill many bytes at once.
const ASCII: &[u8] = &[b'a'; 4096];

/// This many bytes of ASCII.
fn ascii(alloc: Global, len: usize) -> Result<Vec<u8>, AllocError> {
    filled(alloc, ASCII, len)
}

/// This many bytes: ASCII, and at the end `end`, if it fits.
fn ending_with(alloc: Global, len: usize, end: &[u8]) -> Result<Vec<u8>, AllocError> {
    let Some(front) = len.checked_sub(end.len()) else {
        return ascii(alloc, len);
    };
    let front = ascii(alloc, front)?;
    joined(alloc, &[front.as_slice(), end])
}

/// Makes each call that encodes a text or appends its encoding. Returns the name of the first one
/// that gives up.
fn encode_all(alloc: Global, flavor: Flavor, text: &str) -> Option<&'static str> {
    let Ok(encoding) = encode(alloc, flavor, text) else {
        return Some("encode");
    };
    let Ok(mut bytes) = encoding.into_vec(alloc) else {
        return Some("into_vec");
    };
    if encode_to_slice(flavor, text, bytes.as_mut_slice()).is_err() {
        Some("encode_to_slice")
    } else if encode_into(flavor, text, &mut bytes).is_err() {
        Some("encode_into")
    } else if counted(flavor, text).encode_into(&mut bytes).is_err() {
        Some("CountedText")
    } else {
        None
    }
}

/// Whether a call decodes bytes, and the text is copied if it is borrowed.
fn decodes(alloc: Global, flavor: Flavor, decoder: Decoder, bytes: &[u8]) -> bool {
    match decoder.call(alloc, flavor, bytes) {
        Ok(text) => text.into_string(alloc).is_ok(),
        Err(_) => false,
    }
}

/// Whether `decode_strict_front` decodes all bytes, and the text is copied if it is borrowed.
fn decodes_front(alloc: Global, flavor: Flavor, bytes: &[u8]) -> bool {
    match decode_strict_front(alloc, flavor, bytes, bytes.len()) {
        Ok(text) => text.into_string(alloc).is_ok(),
        Err(_) => false,
    }
}

/// Whether a call decodes bytes to a buffer. U+FFFD takes three bytes for one, and valid bytes take
/// no more than their own number.
fn decodes_to_slice(alloc: Global, flavor: Flavor, decoder: Decoder, bytes: &[u8]) -> bool {
    let times = if decoder.is_lossy() { 3 } else { 1 };
    match ascii(alloc, bytes.len().saturating_mul(times)) {
        Ok(mut buf) => SliceCall::Decode(decoder, bytes)
            .write(flavor, &mut buf)
            .is_ok(),
        Err(_) => false,
    }
}

/// Makes each call that decodes bytes. If they are damaged, it makes only the lossy ones. Returns
/// the name of the first one that gives up.
fn decode_all(
    alloc: Global,
    flavor: Flavor,
    bytes: &[u8],
    is_damaged: bool,
) -> Option<&'static str> {
    for decoder in DECODERS {
        let is_tried = decoder.is_lossy() || !is_damaged;
        if is_tried && !decodes(alloc, flavor, decoder, bytes) {
            return Some(decoder.name());
        }
        if is_tried && !decodes_to_slice(alloc, flavor, decoder, bytes) {
            return Some("one of the same name, to a slice");
        }
    }
    if is_damaged || decodes_front(alloc, flavor, bytes) {
        None
    } else {
        Some("decode_strict_front")
    }
}

/// Whether a Java string is read by the call that returns its text.
fn reads(alloc: Global, form: &[u8]) -> bool {
    match read_utf(alloc, form) {
        Ok((text, _)) => text.into_string(alloc).is_ok(),
        Err(_) => false,
    }
}

/// Whether a damaged Java string is read by the call that returns its text.
fn reads_lossily(alloc: Global, form: &[u8]) -> bool {
    match read_utf_lossy(alloc, form) {
        Ok((text, _)) => text.into_string(alloc).is_ok(),
        Err(_) => false,
    }
}

/// Makes each call that writes a Java string, or reads one without damage. Returns the name of the
/// first one that gives up.
fn exchange(alloc: Global, text: &str) -> Option<&'static str> {
    let mut form = Vec::new(alloc);
    if write_utf(text, &mut form).is_err() {
        return Some("write_utf");
    }
    let Ok(mut buf) = ascii(alloc, form.len()) else {
        return Some("a buffer");
    };
    if write_utf_to_slice(text, &mut buf).is_err() {
        Some("write_utf_to_slice")
    } else if !reads(alloc, &form) {
        Some("read_utf")
    } else if read_utf_to_slice(&form, &mut buf).is_err() {
        Some("read_utf_to_slice")
    } else {
        None
    }
}

/// These bytes of MUTF-8 as a Java string.
fn form_of(alloc: Global, bytes: &[u8]) -> Result<Vec<u8>, AllocError> {
    let count = u16::try_from(bytes.len()).unwrap_or(u16::MAX).to_be_bytes();
    joined(alloc, &[&count, bytes])
}

/// Makes each call that reads a Java string lossily, of these bytes of MUTF-8.
fn read_lossily(alloc: Global, bytes: &[u8]) -> Option<&'static str> {
    let Ok(form) = form_of(alloc, bytes) else {
        return Some("a form");
    };
    let Ok(mut buf) = ascii(alloc, bytes.len().saturating_mul(3)) else {
        return Some("a buffer");
    };
    if !reads_lossily(alloc, &form) {
        Some("read_utf_lossy")
    } else if read_utf_lossy_to_slice(&form, &mut buf).is_err() {
        Some("read_utf_lossy_to_slice")
    } else {
        None
    }
}

/// The end, in UTF-8, of texts that both encodings change.
const TEXT_END: &[u8] = b"\xF0\x9F\x92\x96";

/// The end of the encodings of these texts.
const ENCODING_END: &[u8] = b"\xED\xA0\xBD\xED\xB2\x96";

/// The end of damaged encodings.
const DAMAGED_END: &[u8] = b"\xFF";

/// Makes each call that encodes, with a text of this many bytes and this end. Returns the name of
/// the first one that gives up.
fn encode_ending(alloc: Global, flavor: Flavor, len: usize, end: &[u8]) -> Option<&'static str> {
    match ending_with(alloc, len, end) {
        Ok(utf8) => match str::from_utf8(&utf8) {
            Ok(text) => encode_all(alloc, flavor, text),
            Err(_) => Some("an input"),
        },
        Err(_) => Some("an input"),
    }
}

/// Makes each call that decodes, with this many bytes and this end.
fn decode_ending(alloc: Global, flavor: Flavor, len: usize, end: &[u8]) -> Option<&'static str> {
    match ending_with(alloc, len, end) {
        Ok(bytes) => decode_all(alloc, flavor, &bytes, end == DAMAGED_END),
        Err(_) => Some("an input"),
    }
}

/// Makes each call that writes or reads a Java string, with a text of this length and this end.
fn exchange_ending(alloc: Global, len: usize, end: &[u8]) -> Option<&'static str> {
    match ending_with(alloc, len, end) {
        Ok(utf8) => match str::from_utf8(&utf8) {
            Ok(text) => exchange(alloc, text),
            Err(_) => Some("an input"),
        },
        Err(_) => Some("an input"),
    }
}

/// Makes each call that reads a Java string lossily, with this many bytes, the last one damaged.
fn read_ending(alloc: Global, len: usize) -> Option<&'static str> {
    match ending_with(alloc, len, DAMAGED_END) {
        Ok(bytes) => read_lossily(alloc, &bytes),
        Err(_) => Some("an input"),
    }
}

/// The first call that gives up on inputs of this many bytes.
fn first_of_codec(alloc: Global, flavor: Flavor, len: usize) -> Option<&'static str> {
    encode_ending(alloc, flavor, len, b"")
        .or(encode_ending(alloc, flavor, len, TEXT_END))
        .or(decode_ending(alloc, flavor, len, b""))
        .or(decode_ending(alloc, flavor, len, ENCODING_END))
        .or(decode_ending(alloc, flavor, len, DAMAGED_END))
}

/// The first call of `java_text` that gives up on strings of this many bytes. They have at most
/// 65,535 bytes of MUTF-8.
fn first_of_java(alloc: Global, len: usize) -> Option<&'static str> {
    if len > 65_535 {
        return None;
    }
    exchange_ending(alloc, len, b"")
        .or(exchange_ending(alloc, len, TEXT_END))
        .or(read_ending(alloc, len))
}

/// Asserts that no call gives up on inputs of these lengths.
fn assert_done(rt: &impl Abort, alloc: Global, lengths: RangeInclusive<usize>) {
    for len in lengths {
        for flavor in FLAVORS {
            let first = first_of_codec(alloc, flavor, len);
            assert_of(rt, first.is_none(), &(len, flavor, first));
        }
        let first = first_of_java(alloc, len);
        assert_of(rt, first.is_none(), &(len, first));
    }
}

#[test]
fn no_call_gives_up_on_few_bytes(rt: HostRuntime) {
    assert_done(&rt, rt.alloc(), 0..=300);
}

/// Lossy decoding of up to 4,096 bytes writes to an array first, and then allocates.
#[test]
fn no_call_gives_up_about_4096_bytes(rt: HostRuntime) {
    assert_done(&rt, rt.alloc(), 4_090..=4_110);
}

#[test]
fn no_call_gives_up_on_many_bytes(rt: HostRuntime) {
    assert_done(&rt, rt.alloc(), 5_000..=5_000);
    assert_done(&rt, rt.alloc(), 8_192..=8_192);
    assert_done(&rt, rt.alloc(), 100_001..=100_001);
}

#[test]
fn no_call_gives_up_on_a_million_bytes(rt: HostRuntime) {
    assert_done(&rt, rt.alloc(), 1_000_003..=1_000_003);
}
