//! Compares strings by their UTF-16 code units, without encoding them.
//!
//! UTF-8 compares as scalar values do. UTF-16 differs: a surrogate pair is below U+E000 to U+FFFF,
//! whose lead bytes in UTF-8 are EE and EF (hexadecimal). So these two rank above four-byte leads.

ghost use Rattle.std.specs.Prelude.{◌≡◌, ◌≢◌, ℕ, ◌+◌, ◌<◌, ◌≤◌, length, slice_index};
ghost use Rattle.std.specs.Cmp.Lexicographic.{slice_cmp};
ghost use Rattle.std.specs.Ordering.{nat_cmp};
ghost use Rattle.std.specs.Str.{chars};
ghost use Rattle.cesu8_text.specs.Order.{utf16_rank};
ghost use Rattle.cesu8_text.specs.Utf16.{units};
ghost use Rattle.cesu8_bytes.specs.Differences.{IsFirstDifference};

use crate::lanes::class::LANES;
use crate::lanes::runs::first_bit;
use std::cmp::Ordering;
use std::simd::prelude::*;

/// Compares two strings. The first bytes that differ decide, or the lengths if none do.
pub fn compare_as_utf16(text: &str, other: &str) -> Ordering
    ensures { result ≡ slice_cmp nat_cmp (units (chars text.now)) (units (chars other.now)) }
{
    let bytes = text.as_bytes();
    let other_bytes = other.as_bytes();
    let len = bytes.len().min(other_bytes.len());
    let offset = first_difference(bytes, other_bytes, len);
    if offset < len {
        rank(bytes[offset]).cmp(&rank(other_bytes[offset]))
    } else {
        bytes.len().cmp(&other_bytes.len())
    }
}

/// Returns the offset of the first byte that differs, or `len` if the first `len` bytes are equal.
#[inline(always)]
fn first_difference(bytes: &[u8], other: &[u8], len: usize) -> usize
    requires { (len ≤ length bytes.now) × (len ≤ length other.now) }
    ensures { IsFirstDifference bytes.now other.now len result }
{
    // A choice between more widths would cost more than wider vectors save.
    match len {
        0 => 0,
        1..8 => difference_by::<1>(bytes, other, len),
        8..16 => difference_by::<8>(bytes, other, len),
        _ => difference_by::<16>(bytes, other, len),
    }
}

/// Like `first_difference`, by vectors of `N` bytes. The last one ends at `len` and may overlap.
#[inline(always)]
fn difference_by<const N: usize>(bytes: &[u8], other: &[u8], len: usize) -> usize
    requires lanes { (0 < N) × (N ≤ LANES) × (N ≤ len) }
    requires long { (len ≤ length bytes.now) × (len ≤ length other.now) }
    ensures { IsFirstDifference bytes.now other.now len result }
{
    let last = len - N;
    let mut offset = 0;
    while offset < last {
        let same = equal_lanes::<N>(bytes, other, offset);
        if same < N {
            return offset + same;
        }
        offset += N;
    }
    last + equal_lanes::<N>(bytes, other, last)
}

/// Returns how many lanes of the two vectors at an offset are equal, before the first that differs.
#[inline(always)]
fn equal_lanes<const N: usize>(bytes: &[u8], other: &[u8], offset: usize) -> usize
    requires lanes { N ≤ LANES }
    requires long { (offset + N ≤ length bytes.now) × (offset + N ≤ length other.now) }
    ensures within { result ≤ N }
    ensures same { (i : ℕ) → i < result
        → slice_index bytes.now (offset + i) ≡ slice_index other.now (offset + i) }
    ensures end { result < N
        → slice_index bytes.now (offset + result) ≢ slice_index other.now (offset + result) }
{
    let lanes: Simd<u8, N> = Simd::from_slice(&bytes[offset..]);
    let other_lanes: Simd<u8, N> = Simd::from_slice(&other[offset..]);
    first_bit::<N>(lanes.simd_ne(other_lanes).to_bitmask())
}

/// Ranks a byte of UTF-8 as UTF-16 orders it: EE and EF become FE and FF, above four-byte leads.
#[inline(always)]
fn rank(byte: u8) -> u8
    ensures { result ≡ utf16_rank byte }
{
    match byte {
        0xEE | 0xEF => byte + 0x10,
        _ => byte,
    }
}
