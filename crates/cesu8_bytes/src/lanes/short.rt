//! Searches and copies short slices. Loops over vectors would cost more than the search or copy.
//!
//! Two vectors of one width, one at the start and one at the end, cover a slice whose length is
//! between that width and twice that width. If it is shorter than twice the width, they overlap.

ghost use Rattle.std.specs.Prelude.{◌≡◌, ◌≤◌, ◌+◌, ◌*◌, ◌-◌, ◌↔◌, ◌++◌, IsTrue, length, drop};
ghost use Rattle.cesu8_bytes.specs.Kernels.{AnyIn};

use super::class::{InVectors, LANES, has};
use crate::writing::offsets::put_lanes;
use std::simd::prelude::*;

/// From 1,024 bytes on, `copy_short` and `append` copy the slice as a whole, in larger steps. This
/// does not pay for fewer bytes: if the compiler cannot rule out that source and destination alias,
/// it copies up to 127 last bytes one by one.
pub(crate) const LONG: usize = 16 * LANES;

/// Returns whether there are at most 64 bytes, which two vectors of one width up to 32 cover.
#[inline(always)]
pub fn are_short(bytes: &[u8]) -> bool
    ensures { IsTrue result ↔ length bytes.now ≤ LANES }
{
    bytes.len() <= LANES
}

/// Calls a function for at most 64 bytes, with the greatest width up to 32 that they fill. For no
/// bytes the result is `of_none`: `by_two_vectors!(value, function[Class](value), of_none)`.
macro_rules! by_two_vectors {
    ($value:expr, $function:ident[$($class:ty),*]($($argument:expr),*), $of_none:expr) => {
        if $value.len() >= 32 {
            $function::<$($class,)* 32>($($argument),*)
        } else if $value.len() >= 16 {
            $function::<$($class,)* 16>($($argument),*)
        } else if $value.len() >= 8 {
            $function::<$($class,)* 8>($($argument),*)
        } else if $value.len() >= 4 {
            $function::<$($class,)* 4>($($argument),*)
        } else if $value.len() >= 2 {
            $function::<$($class,)* 2>($($argument),*)
        } else if $value.is_empty() {
            $of_none
        } else {
            $function::<$($class,)* 1>($($argument),*)
        }
    };
}

pub(crate) use by_two_vectors;

/// Returns whether some byte is in the class. Joining the two results by `|` avoids a branch.
#[inline(always)]
pub fn any_in_ends<C: InVectors<N>, const N: usize>(bytes: &[u8]) -> bool
    requires { (N ≤ LANES) × (N ≤ length bytes.now) × (length bytes.now ≤ 2 * N) }
    ensures { IsTrue result ↔ AnyIn C.class bytes.now }
{
    let front: Simd<u8, N> = Simd::from_slice(bytes);
    let end = end_vector::<N>(bytes);
    has::<C, N>(front) | has::<C, N>(end)
}

#[inline(always)]
pub(crate) fn end_vector<const N: usize>(bytes: &[u8]) -> Simd<u8, N>
    requires { (N ≤ LANES) × (N ≤ length bytes.now) }
    ensures { result ≡ drop (length bytes.now - N) bytes.now }
{
    Simd::from_slice(&bytes[bytes.len() - N..])
}

/// Copies any slice to the start of a buffer, a short one faster than a call of `memmove` would.
#[inline(always)]
pub fn copy_short(bytes: &[u8], buf: &mut [u8])
    requires { length bytes.now ≤ length buf.old }
    ensures { buf.new ≡ bytes.now ++ drop (length bytes.now) buf.old }
{
    if bytes.len() >= LONG {
        copy_long(bytes, buf);
        return;
    }
    if are_short(bytes) {
        by_two_vectors!(bytes, copy_ends[](bytes, buf), ());
        return;
    }
    // Longer slices are copied vector by vector. The last one may overlap the one before it.
    let last = bytes.len() - LANES;
    let mut at = 0;
    while at < last {
        let lanes: Simd<u8, LANES> = Simd::from_slice(&bytes[at..]);
        at = put_lanes(lanes, buf, at);
    }
    let lanes: Simd<u8, LANES> = Simd::from_slice(&bytes[last..]);
    put_lanes(lanes, buf, last);
}

/// Copies bytes to the start of a buffer as a whole. It is not inlined, since its code is long.
#[inline(never)]
fn copy_long(bytes: &[u8], buf: &mut [u8])
    requires { length bytes.now ≤ length buf.old }
    ensures { buf.new ≡ bytes.now ++ drop (length bytes.now) buf.old }
{
    buf[..bytes.len()].copy_from_slice(bytes);
}

#[inline(always)]
fn copy_ends<const N: usize>(bytes: &[u8], buf: &mut [u8])
    requires lanes { (N ≤ LANES) × (N ≤ length bytes.now) × (length bytes.now ≤ 2 * N) }
    requires room { length bytes.now ≤ length buf.old }
    ensures { buf.new ≡ bytes.now ++ drop (length bytes.now) buf.old }
{
    let front: Simd<u8, N> = Simd::from_slice(bytes);
    let end = end_vector::<N>(bytes);
    front.copy_to_slice(buf);
    end.copy_to_slice(&mut buf[bytes.len() - N..]);
}
