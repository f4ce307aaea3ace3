//! Characters that change, and damage, near the borders of blocks and windows, compared with the
//! plain decoder. They are put into a fill: a few bytes that are repeated.

use crate::asserts::{assert_readings, inserted};
use crate::decoding::rows::ROWS;
use std::alloc::Global;
use std::ops::Range;
use std::process::Abort;
use test_cases::fills::FILLS;

/// A surrogate pair, one that is cut off, U+0000 in both forms, UTF-8 of four bytes, U+007F, lead
/// bytes, and bytes that begin no character.
static PIECES: [&[u8]; 11] = [
    b"\xED\xA0\xBD\xED\xB2\x96",
    b"\xED\xA0\xBD\xED\xB2",
    b"\xC0\x80",
    b"\0",
    b"\xF0\x9F\x92\x96",
    b"\x7F",
    b"\x80",
    b"\xBF",
    b"\xC3",
    b"\xF0",
    b"\xFF",
];

/// Asserts what is decoded if `put` is inserted at each of some offsets.
fn assert_at(
    rt: &impl Abort,
    alloc: Global,
    fill: (&[u8], usize),
    places: Range<usize>,
    put: &[u8],
) {
    for place in places {
        assert_readings(rt, alloc, &inserted(rt, alloc, fill, put, place));
    }
}

/// Each piece at each of some offsets.
fn assert_each(rt: &impl Abort, alloc: Global, fill: (&[u8], usize), places: Range<usize>) {
    for put in &PIECES {
        assert_at(rt, alloc, fill, places.start..places.end, put);
    }
}

/// Each piece at each offset of ASCII of some lengths.
fn assert_pieces(rt: &impl Abort, alloc: Global, lengths: Range<usize>) {
    for len in lengths {
        assert_each(rt, alloc, (FILLS[0], len), 0..len.saturating_add(1));
    }
}

#[test]
fn reads_pieces_in_short_input(rt: HostRuntime) {
    assert_pieces(&rt, rt.alloc(), 0..40);
}

#[test]
fn reads_pieces_about_blocks(rt: HostRuntime) {
    assert_pieces(&rt, rt.alloc(), 60..66);
    assert_pieces(&rt, rt.alloc(), 127..129);
}

/// Each piece in a fill, near multiples of 64 bytes, at which blocks end.
fn assert_about_windows(rt: &impl Abort, alloc: Global, fill: &[u8]) {
    for end in [256usize, 1_024, 1_088, 1_280, 2_048] {
        let places = end.saturating_sub(6)..end.saturating_add(2);
        assert_each(rt, alloc, (fill, end.saturating_add(20)), places);
    }
}

#[test]
fn reads_pieces_about_the_ends_of_windows(rt: HostRuntime) {
    assert_about_windows(&rt, rt.alloc(), FILLS[0]);
    assert_about_windows(&rt, rt.alloc(), FILLS[5]);
}

/// U+0000 as C0 80 among other characters. These are eleven bytes, so if they are repeated, C0 80
/// begins at each offset of a block.
const AMONG_NULLS: &[u8] = b"\xC0\x80a\xC0\x80\xC0\x80\xC3\xA9b\x7F";

/// Each piece, and a lone C0, at each offset of a block of these.
#[test]
fn reads_pieces_among_nulls(rt: HostRuntime) {
    assert_each(&rt, rt.alloc(), (AMONG_NULLS, 420), 64..97);
    assert_at(&rt, rt.alloc(), (AMONG_NULLS, 420), 64..97, b"\xC0");
}

/// Each byte near the end of a block, in a fill.
fn assert_bytes(rt: &impl Abort, alloc: Global, fill: &[u8]) {
    for byte in 0..=u8::MAX {
        assert_at(rt, alloc, (fill, 72), 58..70, &[byte]);
    }
}

#[test]
fn reads_each_byte_among_one_and_two_bytes(rt: HostRuntime) {
    assert_bytes(&rt, rt.alloc(), FILLS[0]);
    assert_bytes(&rt, rt.alloc(), FILLS[1]);
}

#[test]
fn reads_each_byte_among_three_and_six_bytes(rt: HostRuntime) {
    assert_bytes(&rt, rt.alloc(), FILLS[2]);
    assert_bytes(&rt, rt.alloc(), FILLS[3]);
}

#[test]
fn reads_each_byte_among_nulls_and_two_widths(rt: HostRuntime) {
    assert_bytes(&rt, rt.alloc(), FILLS[4]);
    assert_bytes(&rt, rt.alloc(), FILLS[5]);
}

/// The bytes `put` at each of the first 64 offsets, at the end of the input and before more of it.
fn assert_at_offsets(rt: &impl Abort, alloc: Global, put: &[u8]) {
    for place in 0..64usize {
        let places = place..place.saturating_add(1);
        assert_at(rt, alloc, (FILLS[5], place), places, put);
    }
    assert_at(rt, alloc, (FILLS[5], 100), 0..64, put);
}

#[test]
fn reads_rows_at_each_offset(rt: HostRuntime) {
    for (put, ..) in &ROWS {
        assert_at_offsets(&rt, rt.alloc(), put);
    }
}
