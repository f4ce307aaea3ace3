//! The unchanged prefix of at most 64 bytes, computed from the masks of one window.
//!
//! It ends at the first event, an ill-formed byte or a character that needs conversion: the bytes
//! before the first event are whole unchanged characters, and no longer prefix is.

ghost use Rattle.std.specs.Prelude.{◌≡◌, ◌≤◌, ◌-◌, ◌++◌, length, replicate};
ghost use Rattle.cesu8_decode.specs.Prefixes.{IsUnchangedPrefix};

use crate::lanes::windows::window_of_padded;
use cesu8_bytes::flavor::Flavor;
use cesu8_bytes::lanes::class::LANES;
use std::simd::prelude::*;

#[derive(Clone, Copy)]
pub struct UnchangedPrefix {
    /// The length of the longest prefix of whole characters that are unchanged in UTF-8.
    pub len: usize,
    /// For at most 64 bytes, a bit for each offset at which a surrogate pair begins, or C0 80 in
    /// MUTF-8. It is 0 if a byte is ill-formed. For more bytes it is not used.
    pub changed: u64,
}

/// Returns the unchanged prefix of at most 64 bytes. The lanes are these bytes, padded with zeros.
#[inline(always)]
pub fn prefix_by_window<F: Flavor, const N: usize>(
    bytes: &[u8],
    lanes: Simd<u8, N>,
) -> UnchangedPrefix
    requires few { (length bytes.now ≤ N) × (N ≤ LANES) }
    requires lanes { lanes ≡ bytes.now ++ replicate (N - length bytes.now) 0 }
    ensures { IsUnchangedPrefix F.flavor bytes.now result }
{
    let window = window_of_padded::<F, N>(bytes, lanes);
    let changed = window.pairs | window.nulls;
    let first = (window.ill_formed | changed).trailing_zeros() as usize;
    UnchangedPrefix {
        len: first.min(bytes.len()),
        changed: if window.ill_formed == 0 { changed } else { 0 },
    }
}
