//! Damaged input that is longer than a window of the lossy decoder, with a character or damage at
//! each offset around the end of the first window.

use crate::asserts::assert_of;
use crate::stream::calls::CHARACTERS;
use crate::stream::damaged::DAMAGED;
use crate::stream::lossy::is_read;
use std::alloc::{AllocError, Global};
use std::process::Abort;
use test_cases::fills::{joined, repeated};

/// The length of a call's buffer. A window has at most a third of this length, less five bytes: 95
/// bytes.
const ROOM: usize = 300;

/// How many letters precede the bytes to test. So the end of the first window, which has at most 95
/// bytes, is before, in or after these.
const FRONTS: std::ops::Range<usize> = 84..101;

/// Returns a damaged byte, `count` letters, the bytes and as many letters again. If all of it were
/// well-formed, a call would convert it as a whole, without the windows of the lossy decoder.
fn surround(
    alloc: Global,
    damage: &[u8],
    count: usize,
    bytes: &[u8],
) -> Result<Vec<u8>, AllocError> {
    let before = repeated(alloc, b"a", count)?;
    let after = repeated(alloc, b"b", count)?;
    joined(alloc, &[damage, &before, bytes, &after])
}

/// Decodes a damaged byte, letters, these bytes and letters in one piece, and compares all that the
/// calls write. All of it fits in the buffer, so a right decoder needs one call; eight are allowed.
fn assert_surrounded(rt: &impl Abort, alloc: Global, is_mutf8: bool, [bytes, text]: [&[u8]; 2]) {
    for count in FRONTS {
        let whole = surround(alloc, b"\xFF", count, bytes).expect(rt, "input");
        let due = surround(alloc, b"\xEF\xBF\xBD", count, text).expect(rt, "its text");
        let is_right = is_read((is_mutf8, 8), &whole, &due, &mut [0xEE; ROOM]);
        assert_of(rt, is_right, &(is_mutf8, count, bytes));
    }
}

#[test]
fn reads_a_character_at_the_end_of_a_window(rt: HostRuntime) {
    for [cesu8, mutf8, utf8] in &CHARACTERS {
        assert_surrounded(&rt, rt.alloc(), false, [cesu8, utf8]);
        assert_surrounded(&rt, rt.alloc(), true, [mutf8, utf8]);
    }
}

#[test]
fn reads_damage_at_the_end_of_a_window(rt: HostRuntime) {
    for (damaged, reading) in &DAMAGED {
        assert_surrounded(&rt, rt.alloc(), false, [damaged, reading.as_bytes()]);
        assert_surrounded(&rt, rt.alloc(), true, [damaged, reading.as_bytes()]);
    }
}
