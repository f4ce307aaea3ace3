//! The longest valid prefix, near the borders of blocks, compared with the plain decoder. Damage is
//! put into a fill: a few bytes that are repeated.

use crate::asserts::{assert_of, inserted};
use std::alloc::Global;
use std::ops::Range;
use std::process::Abort;
use test_cases::fills::FILLS;
use test_cases::flavors::{Flavor, valid_up_to};
use test_cases::plain::read;

/// Asserts the length of the longest valid prefix, in one encoding.
fn assert_front(rt: &impl Abort, alloc: Global, flavor: Flavor, bytes: &[u8]) {
    let valid = valid_up_to(flavor, bytes);
    let expected = read(alloc, flavor, bytes).expect(rt, "a reading").valid;
    assert_of(rt, valid == expected, &(flavor, valid, expected, bytes));
}

/// Asserts the valid prefix, in each encoding, if `put` is inserted at each of some offsets of a
/// fill.
fn assert_at(
    rt: &impl Abort,
    alloc: Global,
    fill: (&[u8], usize),
    places: Range<usize>,
    put: &[u8],
) {
    for place in places {
        let bytes = inserted(rt, alloc, fill, put, place);
        assert_front(rt, alloc, Flavor::Cesu8, &bytes);
        assert_front(rt, alloc, Flavor::Mutf8, &bytes);
    }
}

/// One damaged byte, four of them, half of a surrogate pair, and a pair whose last byte is missing.
static DAMAGE: [&[u8]; 4] = [
    b"\xFF",
    b"\xFF\xFF\xFF\xFF",
    b"\xED\xA0\xBD",
    b"\xED\xA0\xBD\xED\xB2",
];

/// Damage near the ends of blocks. The first block has 32 bytes, and each step after it 64.
fn assert_about_blocks(rt: &impl Abort, alloc: Global, fill: &[u8], put: &[u8]) {
    for end in [32usize, 64, 96, 160, 224] {
        let places = end.saturating_sub(12)..end.saturating_add(12);
        assert_at(rt, alloc, (fill, 300), places, put);
    }
}

#[test]
fn finds_damage_about_the_ends_of_blocks(rt: HostRuntime) {
    for put in &DAMAGE {
        for fill in &FILLS {
            assert_about_blocks(&rt, rt.alloc(), fill, put);
        }
    }
}

/// Damage near the end, at lengths for which the last block overlaps the one before it.
fn assert_about_the_end(rt: &impl Abort, alloc: Global, fill: &[u8], put: &[u8]) {
    for len in 28..132usize {
        assert_at(rt, alloc, (fill, len), len.saturating_sub(7)..len, put);
    }
}

#[test]
fn finds_damage_about_the_end(rt: HostRuntime) {
    for put in &DAMAGE {
        for fill in &FILLS {
            assert_about_the_end(&rt, rt.alloc(), fill, put);
        }
    }
}
