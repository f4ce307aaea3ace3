//! What the test modules share.

use std::alloc::Global;
use std::fmt::Debug;
use std::process::Abort;
use std::str;
use test_cases::borders::Border;
use test_cases::comparisons::{Difference, expect_readings};
use test_cases::fills;

/// Asserts that a fact holds of a row or an input, and otherwise shows it.
pub fn assert_of<T: Debug>(rt: &impl Abort, holds: bool, of: &T) {
    assert!(rt; holds, "of {of:?}");
}

/// Asserts that nothing differs, and otherwise shows the input.
pub fn assert_same(rt: &impl Abort, compared: Result<(), Difference>, bytes: &[u8]) {
    assert!(rt; compared.is_ok(), "{compared:?} of {bytes:?}");
}

/// Asserts that nothing differs, and otherwise shows the string that was tried, or its name.
pub fn assert_same_text(rt: &impl Abort, compared: Result<(), Difference>, tried: &str) {
    assert!(rt; compared.is_ok(), "{compared:?} of {tried:?}");
}

/// Asserts that each call that decodes, in both encodings, agrees with the plain decoder.
pub fn assert_readings(rt: &impl Abort, alloc: Global, bytes: &[u8]) {
    assert_same(rt, expect_readings(alloc, bytes), bytes);
}

/// A fill (a few bytes), repeated to this length, with `put` inserted at one offset.
pub fn inserted(
    rt: &impl Abort,
    alloc: Global,
    fill: (&[u8], usize),
    put: &[u8],
    place: usize,
) -> Vec<u8> {
    fills::spliced(alloc, fill, put, place..place).expect(rt, "an input")
}

/// ASCII of length `len`, with a character inserted at one offset.
pub fn ascii_with(
    rt: &impl Abort,
    alloc: Global,
    len: usize,
    character: &str,
    place: usize,
) -> Vec<u8> {
    inserted(rt, alloc, (b"a", len), character.as_bytes(), place)
}

/// The string of a row of `BORDERS`. It is empty only if the row's bytes are not UTF-8.
pub fn text_of(border: &Border) -> &'static str {
    str::from_utf8(border.utf8).unwrap_or("")
}

/// Whether a call returned this string.
pub fn is_text<E: Drop>(returned: Result<String, E>, want: &str) -> bool {
    match returned {
        Ok(text) => text.as_str() == want,
        Err(_) => false,
    }
}

/// Whether a call returned these bytes.
pub fn is_bytes<E: Drop>(returned: Result<Vec<u8>, E>, want: &[u8]) -> bool {
    match returned {
        Ok(bytes) => bytes.as_slice() == want,
        Err(_) => false,
    }
}
