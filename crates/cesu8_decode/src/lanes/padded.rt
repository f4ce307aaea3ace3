//! At most 64 bytes as one vector, padded with zeros.

ghost use Rattle.std.specs.Prelude.{◌≡◌, ◌≤◌, ◌-◌, ◌++◌, length, replicate};

use crate::strategy::is_one_block;
use cesu8_bytes::BLOCK;
use cesu8_bytes::lanes::class::LANES;
use cesu8_bytes::lanes::padded::padded_half;
use cesu8_bytes::writing::offsets::put_lanes;
use std::simd::prelude::*;

#[inline(always)]
pub fn padded(bytes: &[u8]) -> u8x64
    requires { length bytes.now ≤ LANES }
    ensures { result ≡ bytes.now ++ replicate (LANES - length bytes.now) 0 }
{
    let mut all = [0; LANES];
    load(bytes, &mut all);
    u8x64::from_array(all)
}

/// Copies at most 64 bytes to an array of zeros, so that a load can go past their end.
#[inline(always)]
pub fn load(bytes: &[u8], source: &mut [u8])
    requires bytes { length bytes.now ≤ LANES }
    requires zeros { source.old ≡ replicate (length source.old) 0 }
    requires room { LANES ≤ length source.old }
    ensures { source.new ≡ bytes.now ++ replicate (length source.old - length bytes.now) 0 }
{
    // Up to 32 bytes are stored at once, so that store-to-load forwarding works for a load of them.
    if is_one_block(bytes) {
        put_lanes(padded_half(bytes), source, 0);
        return;
    }
    put_lanes(u8x32::from_slice(bytes), source, 0);
    put_lanes(padded_half(&bytes[BLOCK..]), source, BLOCK);
}
