//! The length of a prefix of whole characters: of all encoded characters (the valid prefix), or
//! only of those that are unchanged in UTF-8 (the unchanged prefix), which decoding finds first.
//! Strict decoding of more than 64 bytes continues after it, and other decoding starts at byte 0.
//!
//! Vectors find the first byte that cannot follow the bytes before it (`lanes::following`). The
//! prefix ends there, or at the last character boundary before that byte if a character is cut off.
//! At most 64 bytes are one window instead, whose masks give the prefix.

ghost use Rattle.std.specs.Prelude.{◌≡◌, ◌+◌, ◌-◌, ◌<◌, ◌≤◌, length, slice_index};
ghost use Rattle.cesu8_decode.specs.Following.{FirstFollow, FollowUpTo, Encoded as AllEncoded, after_fillers, crosses_at, is_high_surrogate};
ghost use Rattle.cesu8_decode.specs.Prefixes.{IsLongestPrefix, IsUnchangedPrefix};

pub mod window;

use crate::lanes::character_set::{CharacterSet, DECIDING, Unchanged};
use crate::lanes::following::{block_after, following_len, two_follow};
use crate::lanes::padded::padded;
use crate::strategy::is_one_block;
use cesu8_bytes::BLOCK;
use cesu8_bytes::flavor::Flavor;
use cesu8_bytes::lanes::class::{Either, LANES, NonAscii};
use cesu8_bytes::lanes::padded::padded_half;
use cesu8_bytes::lanes::runs::run_of_groups;
use cesu8_bytes::lanes::short::are_short;
use std::simd::prelude::*;
pub use window::UnchangedPrefix;
use window::prefix_by_window;

#[inline(always)]
pub fn unchanged_prefix<F: Flavor>(bytes: &[u8]) -> UnchangedPrefix
    ensures { IsUnchangedPrefix F.flavor bytes.now result }
{
    if is_one_block(bytes) {
        return prefix_by_window::<F, BLOCK>(bytes, padded_half(bytes));
    }
    prefix_of_more::<F>(bytes)
}

/// Like `unchanged_prefix`, but not inlined, so that its callers are small. It returns two words,
/// which fit in registers. At most 32 bytes save few registers, since more take another call.
#[inline(never)]
pub fn unchanged_prefix_by_call<F: Flavor>(bytes: &[u8]) -> UnchangedPrefix
    ensures { IsUnchangedPrefix F.flavor bytes.now result }
{
    if is_one_block(bytes) {
        return prefix_by_window::<F, BLOCK>(bytes, padded_half(bytes));
    }
    prefix_of_more_by_call::<F>(bytes)
}

/// Calls `prefix_of_more`, whose code is long.
#[inline(never)]
fn prefix_of_more_by_call<F: Flavor>(bytes: &[u8]) -> UnchangedPrefix
    ensures { IsUnchangedPrefix F.flavor bytes.now result }
{
    prefix_of_more::<F>(bytes)
}

/// Like `unchanged_prefix`, for more than 32 bytes.
#[inline(always)]
fn prefix_of_more<F: Flavor>(bytes: &[u8]) -> UnchangedPrefix
    ensures { IsUnchangedPrefix F.flavor bytes.now result }
{
    if are_short(bytes) {
        return prefix_by_window::<F, LANES>(bytes, padded(bytes));
    }
    // `changed` is used for at most 64 bytes only.
    UnchangedPrefix {
        len: longest_prefix::<F, Unchanged>(bytes),
        changed: 0,
    }
}

/// Returns the length of the longest prefix of whole characters of a set. The input has more than
/// 64 bytes. It is not inlined, since it is long.
#[inline(never)]
pub fn longest_prefix<F: Flavor, S: CharacterSet>(bytes: &[u8]) -> usize
    requires { LANES < length bytes.now }
    ensures { IsLongestPrefix S.set F.flavor bytes.now result }
{
    last_boundary::<F, S>(bytes, following_many::<F, S>(bytes))
}

/// Returns the offset of the first byte that cannot follow the bytes before it, or the length if
/// there is none. It first skips groups of 256 bytes of unchanged ASCII, or else tests one block.
#[inline(always)]
fn following_many<F: Flavor, S: CharacterSet>(bytes: &[u8]) -> usize
    requires { LANES < length bytes.now }
    ensures { FollowUpTo S.set F.flavor bytes.now result }
{
    let run = run_of_groups::<Either<F::Null, NonAscii>>(bytes);
    if run == 0 {
        let block = u8x32::from_slice(bytes);
        let len = following_len::<F, S>(block_after(u8x32::splat(0), block));
        if len != BLOCK {
            return len;
        }
    }
    following_from::<F, S>(bytes, run.max(BLOCK))
}

/// Like `following_many`, if the bytes up to `start` follow each other. A block's test needs the
/// `DECIDING` bytes before it. The last block may overlap the one before it, so that it is whole.
#[inline(always)]
fn following_from<F: Flavor, S: CharacterSet>(bytes: &[u8], start: usize) -> usize
    requires first { FirstFollow S.set F.flavor bytes.now start }
    requires start { (DECIDING ≤ start) × (LANES < length bytes.now) }
    ensures { FollowUpTo S.set F.flavor bytes.now result }
{
    let mut at = following_twos::<F, S>(bytes, start);
    while at < bytes.len() {
        let from = at.min(bytes.len() - BLOCK);
        let block = u8x32::from_slice(&bytes[from..]);
        let len = following_len::<F, S>(S::block_at(block, bytes, from));
        if len != BLOCK {
            return from + len;
        }
        // This is `from + len`, but the next block need not wait for `len`.
        at = from + BLOCK;
    }
    at
}

/// Returns an offset up to which every byte can follow the bytes before it. It tests two blocks at
/// once from `start` on, and stops before the first two in which there is an error.
#[inline(always)]
fn following_twos<F: Flavor, S: CharacterSet>(bytes: &[u8], start: usize) -> usize
    requires first { FirstFollow S.set F.flavor bytes.now start }
    requires start { DECIDING ≤ start }
    ensures follow { FirstFollow S.set F.flavor bytes.now result }
    ensures start { start ≤ result }
{
    let mut at = start;
    while bytes.len() - at >= 2 * BLOCK && two_follow::<F, S>(bytes, at) {
        at += 2 * BLOCK;
    }
    at
}

/// Returns the last character boundary up to `at`, the result of `following_many`. If a set has no
/// characters that need conversion, a character that is cut off begins in the last two bytes. Both
/// are loaded before the tests, to have fewer branches that can be mispredicted.
#[inline(always)]
fn last_boundary<F: Flavor, S: CharacterSet>(bytes: &[u8], at: usize) -> usize
    requires { FollowUpTo S.set F.flavor bytes.now at }
    ensures { IsLongestPrefix S.set F.flavor bytes.now result }
{
    if S::rule().has_changed {
        return last_uncrossed::<F, S>(bytes, at);
    }
    if at == 0 {
        return at;
    }
    // If only one byte precedes `at`, it is loaded twice. The second test then finds no lead byte.
    let last = bytes[at - 1];
    let second = bytes[at.max(2) - 2];
    if last >= 0xC0 {
        at - 1
    } else if second >= 0xE0 {
        at - 2
    } else {
        at
    }
}

/// Like `last_boundary`, for a set with surrogate pairs: tests each offset from `at` backwards.
#[inline(always)]
fn last_uncrossed<F: Flavor, S: CharacterSet>(bytes: &[u8], at: usize) -> usize
    requires { FollowUpTo S.set F.flavor bytes.now at }
    ensures { IsLongestPrefix S.set F.flavor bytes.now result }
{
    let mut end = at;
    while end > 0 && may_be_crossed::<S>(bytes, end) {
        end -= 1;
    }
    end
}

/// Returns whether a character or surrogate pair can cross an offset, by the four bytes before it.
#[inline(always)]
pub fn may_be_crossed<S: CharacterSet>(bytes: &[u8], at: usize) -> bool
    requires { at ≤ length bytes.now }
    ensures { result ≡ crosses_at S.set (after_fillers bytes.now) at }
{
    let last = byte_before(bytes, at, 1);
    let second_last = byte_before(bytes, at, 2);
    if last >= 0xC0 || second_last >= 0xE0 {
        return true;
    }
    if !S::rule().has_changed {
        return false;
    }
    let third_last = byte_before(bytes, at, 3);
    begins_high_surrogate(third_last, second_last)
        || begins_high_surrogate(byte_before(bytes, at, 4), third_last)
}

#[inline(always)]
fn begins_high_surrogate(first: u8, second: u8) -> bool
    ensures { result ≡ is_high_surrogate AllEncoded first second }
{
    first == 0xED && matches!(second, 0xA0..=0xAF)
}

/// Returns the byte that precedes an offset by `back` bytes, or 0 if there is none.
#[inline(always)]
fn byte_before(bytes: &[u8], at: usize, back: usize) -> u8
    requires at { at ≤ length bytes.now }
    requires back { (0 < back) × (back ≤ 4) }
    ensures { result ≡ slice_index (after_fillers bytes.now) (at + (4 - back)) }
{
    if back <= at { bytes[at - back] } else { 0 }
}
