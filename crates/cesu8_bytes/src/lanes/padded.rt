//! Short slices as a block, padded with zeros.
//!
//! Shuffles combine the parts of the slice in registers. Copying it to a buffer and loading the
//! block from there would wait for store-to-load forwarding.

ghost use Rattle.std.specs.Prelude.{◌≡◌, ◌<◌, ◌≤◌, ◌-◌, ◌++◌, length, replicate};
ghost use Rattle.cesu8_bytes.specs.Padded.{ends_of};

use super::short::end_vector;
use crate::BLOCK;
use crate::writing::packing::HALF;
use std::simd::prelude::*;

/// The index that selects no lane and gives 0.
const E: u8 = 128;

/// The indices of half a block and as many that give 0. The 16 from `i` on shift lanes down by `i`.
const INDICES: [u8; 2 * HALF] = [
    0, 1, 2, 3, 4, 5, 6, 7, 8, 9, 10, 11, 12, 13, 14, 15, E, E, E, E, E, E, E, E, E, E, E, E, E, E,
    E, E,
];

/// The indices that concatenate two halves.
const BOTH_HALVES: [usize; BLOCK] = [
    0, 1, 2, 3, 4, 5, 6, 7, 8, 9, 10, 11, 12, 13, 14, 15, 16, 17, 18, 19, 20, 21, 22, 23, 24, 25,
    26, 27, 28, 29, 30, 31,
];

/// Row `n` selects from `ends` the lanes that are the `n` bytes of a slice, in order.
const IN_ENDS: [[u8; HALF]; HALF] = [
    [E, E, E, E, E, E, E, E, E, E, E, E, E, E, E, E],
    [0, E, E, E, E, E, E, E, E, E, E, E, E, E, E, E],
    [0, 1, E, E, E, E, E, E, E, E, E, E, E, E, E, E],
    [0, 1, 3, E, E, E, E, E, E, E, E, E, E, E, E, E],
    [0, 1, 2, 3, E, E, E, E, E, E, E, E, E, E, E, E],
    [0, 1, 2, 3, 7, E, E, E, E, E, E, E, E, E, E, E],
    [0, 1, 2, 3, 6, 7, E, E, E, E, E, E, E, E, E, E],
    [0, 1, 2, 3, 5, 6, 7, E, E, E, E, E, E, E, E, E],
    [0, 1, 2, 3, 4, 5, 6, 7, E, E, E, E, E, E, E, E],
    [0, 1, 2, 3, 4, 5, 6, 7, 15, E, E, E, E, E, E, E],
    [0, 1, 2, 3, 4, 5, 6, 7, 14, 15, E, E, E, E, E, E],
    [0, 1, 2, 3, 4, 5, 6, 7, 13, 14, 15, E, E, E, E, E],
    [0, 1, 2, 3, 4, 5, 6, 7, 12, 13, 14, 15, E, E, E, E],
    [0, 1, 2, 3, 4, 5, 6, 7, 11, 12, 13, 14, 15, E, E, E],
    [0, 1, 2, 3, 4, 5, 6, 7, 10, 11, 12, 13, 14, 15, E, E],
    [0, 1, 2, 3, 4, 5, 6, 7, 9, 10, 11, 12, 13, 14, 15, E],
];

/// Returns a reference to `IN_ENDS`. Indexing the constant would copy it to the stack.
#[inline(always)]
fn in_ends() -> &'static [[u8; HALF]; HALF]
    ensures { result.now ≡ IN_ENDS }
{
    &IN_ENDS
}

#[inline(always)]
fn padded_sixteen(bytes: &[u8]) -> u8x16
    requires { length bytes.now < HALF }
    ensures { result ≡ bytes.now ++ replicate (HALF - length bytes.now) 0 }
{
    ends(bytes).swizzle_dyn_within::<16>(u8x16::from_array(in_ends()[bytes.len()]))
}

/// Returns the first `n` and the last `n` of fewer than 16 bytes, for the greatest `n` of 8, 4, 2
/// and 1 that they have. Together these are all the bytes.
#[inline(always)]
fn ends(bytes: &[u8]) -> u8x16
    requires { length bytes.now < HALF }
    ensures { result ≡ ends_of bytes.now }
{
    if bytes.len() >= 8 {
        return u8x8::from_slice(bytes).shuffle::<16>(
            end_vector::<8>(bytes),
            [0, 1, 2, 3, 4, 5, 6, 7, 8, 9, 10, 11, 12, 13, 14, 15],
        );
    }
    if bytes.len() >= 4 {
        return u8x4::from_slice(bytes).shuffle::<16>(
            end_vector::<4>(bytes),
            [0, 1, 2, 3, 4, 5, 6, 7, 0, 0, 0, 0, 0, 0, 0, 0],
        );
    }
    if bytes.len() >= 2 {
        return u8x2::from_slice(bytes).shuffle::<16>(
            end_vector::<2>(bytes),
            [0, 1, 2, 3, 0, 0, 0, 0, 0, 0, 0, 0, 0, 0, 0, 0],
        );
    }
    if bytes.is_empty() {
        return u8x16::splat(0);
    }
    u8x16::splat(bytes[0])
}

/// Returns at most a block (32 bytes), padded with zeros: half of the 64 that `cesu8_decode` loads.
#[inline(always)]
pub fn padded_half(bytes: &[u8]) -> u8x32
    requires { length bytes.now ≤ BLOCK }
    ensures { result ≡ bytes.now ++ replicate (BLOCK - length bytes.now) 0 }
{
    if bytes.len() < HALF {
        return padded_sixteen(bytes).shuffle::<BLOCK>(u8x16::splat(0), BOTH_HALVES);
    }
    // A load must not pass the end of the slice. So the second half is loaded up to the end, and
    // the shuffle removes what it shares with the first half.
    let indices = u8x16::from_slice(&INDICES[BLOCK - bytes.len()..]);
    let last = u8x16::from_slice(&bytes[bytes.len() - HALF..]);
    let second = last.swizzle_dyn_within::<16>(indices);
    u8x16::from_slice(bytes).shuffle::<BLOCK>(second, BOTH_HALVES)
}
