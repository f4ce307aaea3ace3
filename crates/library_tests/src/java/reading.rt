//! The calls that read a Java string. Some return its text. The others write it to a buffer, which
//! has each length up to more than is needed.

use crate::asserts::assert_of;
use crate::java::reading::Due::{Borrowed, Invalid, Owned, Truncated};
use java_text::{
    ReadFault, ReadSliceFault, read_utf, read_utf_lossy, read_utf_lossy_to_slice, read_utf_to_slice,
};
use simd_cesu8::CowText;
use std::alloc::Global;
use std::process::Abort;
use test_cases::slices::{buffer, holds};

/// What a call has to return: a text and the bytes after its form, or an error.
#[derive(Clone, Copy, Debug)]
enum Due<'a> {
    Borrowed(&'a str, &'a [u8]),
    Owned(&'a str, &'a [u8]),
    Truncated,
    Invalid,
}

impl Due<'_> {
    /// Whether a call returned this.
    fn is_returned(self, read: &Result<(CowText<'_>, &[u8]), ReadFault>) -> bool {
        match (self, read) {
            (Borrowed(want, after), Ok((text, rest))) => {
                text.is_borrowed() && text.as_str() == want && *rest == after
            }
            (Owned(want, after), Ok((text, rest))) => {
                !text.is_borrowed() && text.as_str() == want && *rest == after
            }
            (Truncated, Err(ReadFault::Truncated)) => true,
            (Invalid, Err(ReadFault::Invalid(_))) => true,
            _ => false,
        }
    }

    /// Whether a call returned this and left it in its buffer.
    fn is_left(self, read: Result<(usize, &[u8]), ReadSliceFault>, buf: &[u8]) -> bool {
        match (self, read) {
            (Borrowed(text, after) | Owned(text, after), Ok((len, rest))) => {
                len == text.len() && rest == after && holds(buf, text.as_bytes())
            }
            (Borrowed(text, _) | Owned(text, _), Err(ReadSliceFault::TooShort(len))) => {
                len == text.len() && len > buf.len() && holds(buf, b"")
            }
            (Truncated, Err(ReadSliceFault::Truncated)) => holds(buf, b""),
            (Invalid, Err(ReadSliceFault::Invalid(_))) => holds(buf, b""),
            _ => false,
        }
    }
}

// U+FFFD, as often as the name says: once for each damaged byte.
const ONE: &str = "\u{FFFD}";

const THREE: &str = "\u{FFFD}\u{FFFD}\u{FFFD}";

const FOUR: &str = "\u{FFFD}\u{FFFD}\u{FFFD}\u{FFFD}";

/// The Java string of U+1F496, and a byte after it.
const PAIR: &[u8] = b"\x00\x06\xED\xA0\xBD\xED\xB2\x96\xFF";

/// Input, and what the strict and the lossy calls have to return.
static ROWS: [(&[u8], Due<'_>, Due<'_>); 15] = [
    (b"", Truncated, Truncated),
    (b"\x00", Truncated, Truncated),
    (b"\x00\x01", Truncated, Truncated),
    (b"\x00\x03a\xC0", Truncated, Truncated),
    (b"\x00\x00", Borrowed("", b""), Borrowed("", b"")),
    (
        b"\x00\x00\x07",
        Borrowed("", b"\x07"),
        Borrowed("", b"\x07"),
    ),
    (b"\x00\x01AB", Borrowed("A", b"B"), Borrowed("A", b"B")),
    (b"\x00\x02\xC0\x80", Owned("\0", b""), Owned("\0", b"")),
    (
        PAIR,
        Owned("\u{1F496}", b"\xFF"),
        Owned("\u{1F496}", b"\xFF"),
    ),
    (b"\x00\x01\x00", Invalid, Owned(ONE, b"")),
    (b"\x00\x01\x00A", Invalid, Owned(ONE, b"A")),
    (b"\x00\x02\xC2AB", Invalid, Owned("\u{FFFD}A", b"B")),
    (b"\x00\x03\xED\xA0\xBD", Invalid, Owned(THREE, b"")),
    (b"\x00\x03\xED\xA0\xBDA", Invalid, Owned(THREE, b"A")),
    (b"\x00\x04\xF0\x9F\x92\x96", Invalid, Owned(FOUR, b"")),
];

/// Asserts what the calls that write to a buffer of this length return and leave in it.
fn assert_left(
    rt: &impl Abort,
    alloc: Global,
    bytes: &[u8],
    (strict, lossy): (Due<'_>, Due<'_>),
    room: usize,
) {
    let mut buf = buffer(alloc, room).expect(rt, "a buffer");
    let read = read_utf_to_slice(bytes, &mut buf);
    let is_left = strict.is_left(read, &buf);
    assert_of(rt, is_left, &("read_utf_to_slice", room, bytes));
    let mut buf = buffer(alloc, room).expect(rt, "a buffer");
    let read = read_utf_lossy_to_slice(bytes, &mut buf);
    let is_left = lossy.is_left(read, &buf);
    assert_of(rt, is_left, &("read_utf_lossy_to_slice", room, bytes));
}

/// Asserts what each call returns for a row, with buffers of any length up to 13.
fn assert_row(rt: &impl Abort, alloc: Global, bytes: &[u8], strict: Due<'_>, lossy: Due<'_>) {
    let is_returned = strict.is_returned(&read_utf(alloc, bytes));
    assert_of(rt, is_returned, &("read_utf", bytes));
    let is_returned = lossy.is_returned(&read_utf_lossy(alloc, bytes));
    assert_of(rt, is_returned, &("read_utf_lossy", bytes));
    for room in 0..14 {
        assert_left(rt, alloc, bytes, (strict, lossy), room);
    }
}

#[test]
fn reads_rows(rt: HostRuntime) {
    for (bytes, strict, lossy) in &ROWS {
        assert_row(&rt, rt.alloc(), bytes, *strict, *lossy);
    }
}
