//! Writes bytes and vectors to an offset of a slice that is long enough.

ghost use Rattle.std.specs.Prelude.{◌+◌, ◌≤◌, length};
ghost use Rattle.cesu8_bytes.specs.Puts.{PutsAt};

use crate::lanes::class::LANES;
use std::simd::prelude::*;

/// Copies bytes to an offset of a slice, and returns the offset after them.
#[inline(always)]
pub fn put(bytes: &[u8], out: &mut [u8], at: usize) -> usize
    requires { at + length bytes.now ≤ length out.old }
    ensures { PutsAt bytes.now at out.old out.new result }
{
    let end = at + bytes.len();
    out[at..end].copy_from_slice(bytes);
    end
}

/// Stores a vector at an offset of a slice, and returns the offset after it.
#[inline(always)]
pub fn put_lanes<const N: usize>(lanes: Simd<u8, N>, out: &mut [u8], at: usize) -> usize
    requires lanes { N ≤ LANES }
    requires room { at + N ≤ length out.old }
    ensures { PutsAt lanes.entry at out.old out.new result }
{
    lanes.copy_to_slice(&mut out[at..]);
    at + N
}
