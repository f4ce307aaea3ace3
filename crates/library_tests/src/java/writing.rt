//! The calls that write a Java string: one appends it to a vector, and the other writes it to a
//! buffer, which has each length near the needed one.

use crate::asserts::assert_of;
use java_text::{WriteFault, WriteSliceFault, read_utf, write_utf, write_utf_to_slice};
use std::alloc::Global;
use std::ops::Range;
use std::process::Abort;
use std::str;
use test_cases::fills::{joined, repeated};
use test_cases::slices::{buffer, holds};

/// What a call has to write for a string: its form, or an error with the length of its MUTF-8 if
/// that is too long.
type Due<'a> = Result<&'a [u8], usize>;

/// Whether `write_utf` appends the right bytes to a vector that has some.
fn is_appended(alloc: Global, text: &str, due: Due<'_>) -> bool {
    let Ok(mut buf) = vec![in alloc; 1, 2] else {
        return false;
    };
    let written = write_utf(text, &mut buf);
    match (written, buf.as_slice(), due) {
        (Ok(()), [1, 2, form @ ..], Ok(due)) => form == due,
        (Err(WriteFault::TooLong(length)), [1, 2], Err(due)) => length == due,
        _ => false,
    }
}

/// Whether `write_utf_to_slice` has the right result with a buffer of this length, and writes
/// nothing else.
fn is_written(alloc: Global, text: &str, due: Due<'_>, room: usize) -> bool {
    let Ok(mut buf) = buffer(alloc, room) else {
        return false;
    };
    let written = write_utf_to_slice(text, &mut buf[..]);
    let (want, front): (_, &[u8]) = match due {
        Ok(form) if form.len() <= room => (Ok(form.len()), form),
        Ok(form) => (Err(WriteSliceFault::TooShort(form.len())), b""),
        Err(length) => (Err(WriteSliceFault::TooLong(length)), b""),
    };
    written == want && holds(buf.as_slice(), front)
}

/// Some strings, and their forms.
static FORMS: [(&str, &[u8]); 5] = [
    ("", b"\x00\x00"),
    ("A", b"\x00\x01A"),
    ("\0", b"\x00\x02\xC0\x80"),
    ("a\0", b"\x00\x03a\xC0\x80"),
    ("\u{1F496}", b"\x00\x06\xED\xA0\xBD\xED\xB2\x96"),
];

/// A call with a wrong result, and the length of its buffer if it has one.
type Wrong = (&'static str, Option<usize>);

/// The first call with a wrong result, with buffers of these lengths.
fn wrong_call(alloc: Global, text: &str, due: Due<'_>, rooms: Range<usize>) -> Option<Wrong> {
    if !is_appended(alloc, text, due) {
        return Some(("write_utf", None));
    }
    for room in rooms {
        if !is_written(alloc, text, due, room) {
            return Some(("write_utf_to_slice", Some(room)));
        }
    }
    None
}

#[test]
fn writes_forms(rt: HostRuntime) {
    for (text, form) in &FORMS {
        let wrong = wrong_call(rt.alloc(), text, Ok(form), 0..10);
        assert_of(&rt, wrong.is_none(), &(wrong, *text));
    }
}

/// Characters of one, two, three and six bytes of MUTF-8, and this MUTF-8.
static CHARACTERS: [(&str, &[u8]); 5] = [
    ("A", b"A"),
    ("\0", b"\xC0\x80"),
    ("\u{80}", b"\xC2\x80"),
    ("\u{800}", b"\xE0\xA0\x80"),
    ("\u{1F496}", b"\xED\xA0\xBD\xED\xB2\x96"),
];

/// Lengths of MUTF-8, and the two bytes of the count. The last length is too large for two bytes.
static COUNTS: [(usize, &[u8]); 9] = [
    (0, b"\x00\x00"),
    (1, b"\x00\x01"),
    (127, b"\x00\x7F"),
    (128, b"\x00\x80"),
    (255, b"\x00\xFF"),
    (256, b"\x01\x00"),
    (65534, b"\xFF\xFE"),
    (65535, b"\xFF\xFF"),
    (65536, b""),
];

/// The bytes of the count, those of a character of `width` bytes of MUTF-8 as many times as it fits
/// in `length` bytes, and `a` for each byte that is left.
fn counted(
    rt: &impl Abort,
    alloc: Global,
    count: &[u8],
    character: &[u8],
    (length, width): (usize, usize),
) -> Vec<u8> {
    let characters = repeated(alloc, character, length.checked_div(width).unwrap_or(0));
    let letters = repeated(alloc, b"a", length.checked_rem(width).unwrap_or(0));
    let (characters, letters) = (
        characters.expect(rt, "bytes"),
        letters.expect(rt, "letters"),
    );
    joined(alloc, &[count, &characters, &letters]).expect(rt, "a string")
}

/// Whether `read_utf` returns the string for its form, with no bytes left. A string without a form
/// passes.
fn is_read(alloc: Global, text: &str, due: Due<'_>) -> bool {
    match due {
        Ok(form) => match read_utf(alloc, form) {
            Ok((read, rest)) => read.as_str() == text && rest.is_empty(),
            Err(_) => false,
        },
        Err(_) => true,
    }
}

/// Like `wrong_call`, for a string whose MUTF-8 has this length, with buffers about as long and
/// with a call that reads the form.
fn wrong_count(alloc: Global, text: &str, due: Due<'_>, length: usize) -> Option<Wrong> {
    if !is_read(alloc, text, due) {
        return Some(("read_utf", None));
    }
    let rooms = length.saturating_add(1)..length.saturating_add(4);
    wrong_call(alloc, text, due, 0..3).or(wrong_call(alloc, text, due, rooms))
}

/// Asserts what the calls return for a string of a character whose MUTF-8 has this length, and
/// whose form begins with this count. If it is too long, there is no count.
fn assert_count(
    rt: &impl Abort,
    alloc: Global,
    (character, mutf8): (&str, &[u8]),
    length: usize,
    count: &[u8],
) {
    let sizes = (length, mutf8.len());
    let utf8 = counted(rt, alloc, b"", character.as_bytes(), sizes);
    let form = counted(rt, alloc, count, mutf8, sizes);
    let due = if count.is_empty() {
        Err(length)
    } else {
        Ok(form.as_slice())
    };
    let wrong = wrong_count(alloc, str::from_utf8(&utf8).unwrap_or(""), due, length);
    assert_of(rt, wrong.is_none(), &(wrong, length, character));
}

#[test]
fn counts_in_two_bytes(rt: HostRuntime) {
    for character in &CHARACTERS {
        for (length, count) in &COUNTS {
            assert_count(&rt, rt.alloc(), *character, *length, count);
        }
    }
}
