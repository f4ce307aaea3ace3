//! Characters in each encoding, and the calls `decode_strict` and `encode` of `cesu8_stream` for
//! both encodings, as values of the type `Call`. The bytes are written by hand, from the tables of
//! UTR 26, of Java's `DataInput` and of RFC 3629.

use cesu8_stream::{Progress, mutf8};
use std::alloc::Global;
use std::process::Abort;
use test_cases::fills;

/// A character in CESU-8, in MUTF-8 and in UTF-8.
pub const CHARACTERS: [[&[u8]; 3]; 13] = [
    [b"\0", b"\xC0\x80", b"\0"],
    [b"a", b"a", b"a"],
    [b"\x7F", b"\x7F", b"\x7F"],
    [b"\xC2\x80", b"\xC2\x80", b"\xC2\x80"],
    [b"\xDF\xBF", b"\xDF\xBF", b"\xDF\xBF"],
    [b"\xE0\xA0\x80", b"\xE0\xA0\x80", b"\xE0\xA0\x80"],
    [b"\xE2\x82\xAC", b"\xE2\x82\xAC", b"\xE2\x82\xAC"],
    [b"\xED\x9F\xBF", b"\xED\x9F\xBF", b"\xED\x9F\xBF"],
    [b"\xEE\x80\x80", b"\xEE\x80\x80", b"\xEE\x80\x80"],
    [b"\xEF\xBF\xBF", b"\xEF\xBF\xBF", b"\xEF\xBF\xBF"],
    [
        b"\xED\xA0\x80\xED\xB0\x80",
        b"\xED\xA0\x80\xED\xB0\x80",
        b"\xF0\x90\x80\x80",
    ],
    [
        b"\xED\xA0\xBD\xED\xB2\x96",
        b"\xED\xA0\xBD\xED\xB2\x96",
        b"\xF0\x9F\x92\x96",
    ],
    [
        b"\xED\xAF\xBF\xED\xBF\xBF",
        b"\xED\xAF\xBF\xED\xBF\xBF",
        b"\xF4\x8F\xBF\xBF",
    ],
];

/// A call of the crate.
#[derive(Clone, Copy)]
pub enum Call {
    DecodeCesu8,
    DecodeMutf8,
    EncodeCesu8,
    EncodeMutf8,
}

pub const CALLS: [Call; 4] = [
    Call::DecodeCesu8,
    Call::DecodeMutf8,
    Call::EncodeCesu8,
    Call::EncodeMutf8,
];

impl Call {
    pub fn run(self, bytes: &[u8], buf: &mut [u8]) -> Progress {
        match self {
            Call::DecodeCesu8 => cesu8_stream::decode_strict(bytes, buf),
            Call::DecodeMutf8 => mutf8::decode_strict(bytes, buf),
            Call::EncodeCesu8 => cesu8_stream::encode(bytes, buf),
            Call::EncodeMutf8 => mutf8::encode(bytes, buf),
        }
    }

    /// Returns a character as the call reads it.
    pub fn input<'a>(self, character: &[&'a [u8]; 3]) -> &'a [u8] {
        match self {
            Call::DecodeCesu8 => character[0],
            Call::DecodeMutf8 => character[1],
            Call::EncodeCesu8 | Call::EncodeMutf8 => character[2],
        }
    }

    /// Returns a character as the call writes it.
    pub fn output<'a>(self, character: &[&'a [u8]; 3]) -> &'a [u8] {
        match self {
            Call::EncodeCesu8 => character[0],
            Call::EncodeMutf8 => character[1],
            Call::DecodeCesu8 | Call::DecodeMutf8 => character[2],
        }
    }
}

/// Joins two parts.
pub fn joined(rt: &impl Abort, alloc: Global, first: &[u8], second: &[u8]) -> Vec<u8> {
    fills::joined(alloc, &[first, second]).expect(rt, "two parts")
}
