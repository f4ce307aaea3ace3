//! `decode_strict_front`, compared with `decode_strict` of the same bytes.

use crate::asserts::assert_of;
use std::alloc::Global;
use std::process::Abort;
use test_cases::decoders::outcome_of;
use test_cases::flavors::{Flavor, decode_strict, decode_strict_front};

/// Whether both calls return the same for the first `len` bytes.
fn is_same(alloc: Global, flavor: Flavor, bytes: &[u8], len: usize) -> bool {
    let front = &bytes[..len.min(bytes.len())];
    let read = decode_strict_front(alloc, flavor, bytes, len);
    let alone = decode_strict(alloc, flavor, front);
    outcome_of(&read) == outcome_of(&alone)
}

/// Asserts that both calls return the same for the first `len` bytes, in each encoding.
fn assert_front(rt: &impl Abort, alloc: Global, bytes: &[u8], len: usize) {
    let is_cesu8 = is_same(alloc, Flavor::Cesu8, bytes, len);
    let is_mutf8 = is_same(alloc, Flavor::Mutf8, bytes, len);
    assert_of(rt, is_cesu8 && is_mutf8, &(is_cesu8, is_mutf8, len, bytes));
}

/// Asserts what is decoded of letters with another byte at one offset, both with and without
/// letters after it.
fn assert_fronts(rt: &impl Abort, alloc: Global, place: usize, byte: u8) {
    let mut bytes = [b'a'; 200];
    if let Some(other) = bytes.get_mut(place) {
        *other = byte;
    }
    let cut = bytes.get(..place.saturating_add(1)).unwrap_or(&[]);
    for len in place..place.saturating_add(3) {
        assert_front(rt, alloc, &bytes, len);
        assert_front(rt, alloc, cut, len);
    }
}

/// One byte among letters is the last of the first `len` bytes, the one before that, or the first
/// byte after them. Prefixes of more than 64 bytes do not take the fast path.
#[test]
fn reads_fronts_of_each_length(rt: HostRuntime) {
    for place in 0..130 {
        assert_fronts(&rt, rt.alloc(), place, b'b');
        assert_fronts(&rt, rt.alloc(), place, 0);
        assert_fronts(&rt, rt.alloc(), place, 0x80);
        assert_fronts(&rt, rt.alloc(), place, 0xFF);
    }
}
