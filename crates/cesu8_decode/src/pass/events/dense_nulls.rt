//! Writes the text of a window in which many bytes are C0 80, and which has no other event. It is
//! right for any number of C0 80, and faster from `MANY_NULLS` (in `events`) on.
//!
//! C0 becomes 00 and the 80 after it is dropped, so shuffles pack the bytes by eights, with no
//! branch on a byte. No byte of the window is ill-formed, so each C0 in it begins C0 80.

ghost use Rattle.std.specs.Prelude.{◌≡◌, ◌+◌, ◌≤◌, ◌==◌, if◌then◌else◌, length, map};
ghost use Rattle.cesu8_decode.specs.Decoding.{WritesWindow};
ghost use Rattle.cesu8_decode.specs.Masks.{HoldWindow};

use crate::lanes::windows::Window;
use cesu8_bytes::BLOCK;
use cesu8_bytes::flavor::Flavor;
use cesu8_bytes::lanes::class::LANES;
use cesu8_bytes::writing::packing::store_kept;
use std::simd::prelude::*;

/// Writes the text and returns its end. The space (`room`) is that of `write_well_formed_events`,
/// which is more than the stores here need.
#[inline(always)]
pub fn write_nulls<F: Flavor>(
    bytes: &[u8],
    at: usize,
    window: Window,
    out: &mut [u8],
    end: usize,
) -> usize
    requires window { HoldWindow F.flavor bytes.now at LANES window }
    requires nulls { (window.pairs ≡ 0) × (window.ill_formed ≡ 0) }
    requires room { end + LANES + LANES ≤ length out.old }
    ensures { WritesWindow F.flavor bytes.now at window end out.old out.new result }
{
    let left_out = window.nulls << 1;
    let mut written = 0;
    let mut end = end;
    while written < LANES {
        let block = u8x32::from_slice(&bytes[at + written..]);
        // Of the mask, `store_kept` uses the lowest 32 bits, which are those of the block.
        end = store_kept(zeroed(block), (left_out >> written) as usize, out, end);
        written += BLOCK;
    }
    // One byte was also stored for each byte from the end of the window to the 64th.
    end - (written - window.len)
}

#[inline(always)]
fn zeroed(bytes: u8x32) -> u8x32
    ensures { result ≡ map (λ b. if b == 0xC0 then 0 else b) bytes }
{
    bytes
        .simd_eq(u8x32::splat(0xC0))
        .select(u8x32::splat(0), bytes)
}
