//! Whether bytes are UTF-8, for lenient decoding, by the `Checker` of `simdutf8`.
//!
//! A `Checker` takes 64 bytes at a time, and reports an error only at the end. So bytes are tested
//! in parts that end between characters, and nothing is read after the first part with an error.
//! `simdutf8::is_utf8` reads all bytes, and copies the last ones to a buffer.

ghost use Rattle.std.specs.Prelude.{◌↔◌, ℕ, ◌+◌, ◌-◌, ◌<◌, ◌≤◌, List, ◌++◌, IsTrue, IsUtf8, length};
ghost use Rattle.std.specs.Str.{IsCharBoundary};
ghost use Rattle.simdutf8.specs.Tracks.{HasRead};
ghost use Rattle.cesu8_text.specs.Patterns.{IsContinuation};

use crate::lanes::padded::padded;
use crate::strategy::is_one_block;
use cesu8_bytes::lanes::class::{LANES, NonAscii};
use cesu8_bytes::lanes::search::any_in_bytes_or_call;
use simdutf8::Checker;
use std::simd::prelude::*;

/// The most bytes of a part. The first part is shorter, at most 64 bytes.
const PART: usize = 16 * LANES;

/// Returns whether the bytes are UTF-8. It is not inlined, so that its callers are small.
#[inline(never)]
pub fn is_utf8_by_parts(bytes: &[u8]) -> bool
    ensures { IsTrue result ↔ IsUtf8 bytes.now }
{
    // Here the compiler knows that half of the vector is zero.
    if is_one_block(bytes) {
        return is_end_utf8(Checker::new(), bytes);
    }
    let first = part_end(bytes, 0, LANES);
    if !is_end_utf8(Checker::new(), &bytes[..first]) {
        return false;
    }
    // Often one character of four bytes is followed by ASCII alone, which needs no `Checker`.
    if !any_in_bytes_or_call::<NonAscii>(&bytes[first..]) {
        return true;
    }
    are_parts_utf8(&bytes[first..])
}

/// Like `is_utf8_by_parts`, but every part has up to `PART` bytes.
#[inline(always)]
fn are_parts_utf8(bytes: &[u8]) -> bool
    ensures { IsTrue result ↔ IsUtf8 bytes.now }
{
    let mut start = 0;
    while start < bytes.len() {
        let end = part_end(bytes, start, PART);
        if !is_part_utf8(&bytes[start..end]) {
            return false;
        }
        start = end;
    }
    true
}

/// Returns the end of a part of at most `most` bytes. In UTF-8 it is a character boundary.
#[inline(always)]
fn part_end(bytes: &[u8], start: usize, most: usize) -> usize
    requires start { start < length bytes.now }
    requires most { 4 ≤ most }
    ensures within { (start < result) × (result ≤ length bytes.now) }
    ensures most { result ≤ start + most }
    ensures boundary { IsUtf8 bytes.now → IsCharBoundary bytes.now result }
{
    if bytes.len() - start <= most {
        return bytes.len();
    }
    character_start(bytes, start + most)
}

/// Returns the offset of the first byte of the character that has a byte at `at`, if the bytes are
/// UTF-8. It is at most three bytes back, since a character has at most three continuation bytes.
#[inline(always)]
fn character_start(bytes: &[u8], at: usize) -> usize
    requires { (3 ≤ at) × (at < length bytes.now) }
    ensures near { (result ≤ at) × (at ≤ result + 3) }
    ensures boundary { IsUtf8 bytes.now → IsCharBoundary bytes.now result }
{
    for back in 0..3 {
        if !is_continuation(bytes[at - back]) {
            return at - back;
        }
    }
    at - 3
}

#[inline(always)]
fn is_continuation(byte: u8) -> bool
    ensures { IsTrue result ↔ IsContinuation byte }
{
    matches!(byte, 0x80..=0xBF)
}

#[inline(always)]
fn is_part_utf8(bytes: &[u8]) -> bool
    ensures { IsTrue result ↔ IsUtf8 bytes.now }
{
    let mut checker = Checker::new();
    let mut at = 0;
    while bytes.len() - at > LANES {
        checker = checker.step(u8x64::from_slice(&bytes[at..]));
        at += LANES;
    }
    is_end_utf8(checker, &bytes[at..])
}

/// Returns whether a checker's bytes and the rest, at most 64 bytes, are UTF-8 together.
#[inline(always)]
fn is_end_utf8(checker: Checker, rest: &[u8]) -> bool
    requires { length rest.now ≤ LANES }
    ensures { (read : List ℕ) → HasRead checker read
        → (IsTrue result ↔ IsUtf8 (read ++ rest.now)) }
{
    checker.step(padded(rest)).finish()
}
