//! Searches for a byte of a class.
//!
//! Two vectors of equal width cover at most 128 bytes. Longer input is tested by four vectors of 64
//! bytes at once, and its end by a vector that overlaps those before it, so no byte is left over.
//!
//! Everything that passes vectors is inlined: a call would pass them through memory.

ghost use Rattle.std.specs.Prelude.{◌<◌, ◌≤◌, ◌↔◌, IsTrue, Any, length};
ghost use Rattle.cesu8_bytes.specs.Kernels.{AnyIn};

use super::class::{InAllVectors, InVectors, LANES, has};
use super::groups::InGroups;
use super::short::{any_in_ends, are_short, by_two_vectors, end_vector};
use std::simd::prelude::*;

/// The longest input that a fast path searches inline.
pub(crate) const CHECKED_INLINE: usize = 4 * LANES;

/// Returns whether some byte is in the class.
#[inline(always)]
pub fn any_in_bytes<C: InAllVectors + InGroups>(bytes: &[u8]) -> bool
    ensures { IsTrue result ↔ AnyIn C.class bytes.now }
{
    if are_short(bytes) {
        return by_two_vectors!(bytes, any_in_ends[C](bytes), false);
    }
    if bytes.len() <= 2 * LANES {
        return any_in_ends::<C, LANES>(bytes);
    }
    any_in_long::<C>(bytes)
}

/// Like `any_in_bytes`, for more than 64 bytes: first whole vectors, then the last 64 bytes.
#[inline(always)]
pub fn any_in_long<C: InGroups>(bytes: &[u8]) -> bool
    requires { LANES < length bytes.now }
    ensures { IsTrue result ↔ AnyIn C.class bytes.now }
{
    let (chunks, _) = bytes.as_chunks::<LANES>();
    let end = end_vector::<LANES>(bytes);
    any_in_chunks::<C>(chunks) || has::<C, LANES>(end)
}

/// Like `any_in_bytes`, but searches more than 256 bytes by a call, since that loop is long code.
#[inline(always)]
pub fn any_in_bytes_or_call<C: InAllVectors + InGroups>(bytes: &[u8]) -> bool
    ensures { IsTrue result ↔ AnyIn C.class bytes.now }
{
    // After its test for long slices, `copy_short` tests lengths in this order too, so a copy that
    // follows shares the tests.
    if are_short(bytes) {
        return any_in_bytes::<C>(bytes);
    }
    if bytes.len() <= 2 * LANES {
        return any_in_ends::<C, LANES>(bytes);
    }
    if bytes.len() > CHECKED_INLINE {
        return any_in_long_by_call::<C>(bytes);
    }
    let (chunks, _) = bytes.as_chunks::<LANES>();
    let last = end_vector::<LANES>(bytes);
    any_in_each::<C, LANES>(chunks) || has::<C, LANES>(last)
}

/// Like `any_in_long`. It is not inlined, since it has many callers.
#[inline(never)]
fn any_in_long_by_call<C: InGroups>(bytes: &[u8]) -> bool
    requires { LANES < length bytes.now }
    ensures { IsTrue result ↔ AnyIn C.class bytes.now }
{
    any_in_long::<C>(bytes)
}

/// Returns whether some byte of the chunks is in the class, testing four chunks at once.
#[inline(always)]
pub fn any_in_chunks<C: InGroups>(chunks: &[[u8; LANES]]) -> bool
    ensures { IsTrue result ↔ Any (AnyIn C.class) chunks.now }
{
    let (groups, rest) = chunks.as_chunks::<4>();
    any_in_groups::<C>(groups) || any_in_each::<C, LANES>(rest)
}

#[inline(always)]
fn any_in_groups<C: InGroups>(groups: &[[[u8; LANES]; 4]]) -> bool
    ensures { IsTrue result ↔ Any (Any (AnyIn C.class)) groups.now }
{
    for group in groups {
        if any_in_group::<C>(group) {
            return true;
        }
    }
    false
}

/// One test of all four chunks rejects most groups. Only the others are tested chunk by chunk.
#[inline(always)]
fn any_in_group<C: InGroups>(group: &[[u8; LANES]; 4]) -> bool
    ensures { IsTrue result ↔ Any (AnyIn C.class) group.now }
{
    let [a, b, c, d] = *group;
    let (a, b) = (Simd::from_array(a), Simd::from_array(b));
    let (c, d) = (Simd::from_array(c), Simd::from_array(d));
    C::may_have(a, b, c, d) && any_in_each::<C, LANES>(group)
}

#[inline(always)]
pub(crate) fn any_in_each<C: InVectors<N>, const N: usize>(chunks: &[[u8; N]]) -> bool
    requires { N ≤ LANES }
    ensures { IsTrue result ↔ Any (AnyIn C.class) chunks.now }
{
    for chunk in chunks {
        if has::<C, N>(Simd::from_array(*chunk)) {
            return true;
        }
    }
    false
}
