//! The events in a window of at most 64 bytes, and where its last character ends.
//!
//! The masks of the characters that begin at each offset show which bytes these cover. The next
//! window begins where the last character of this one ends, so it depends on no earlier bytes.

ghost use Rattle.std.specs.Prelude.{◌≡◌, ℕ, List, ◌+◌, ◌-◌, ◌++◌, ◌<◌, ◌≤◌, ◌⊎◌, true, length, replicate, slice_index};
ghost use Rattle.cesu8_decode.specs.DecodedOffsets.{is_boundary_at, window_of};
ghost use Rattle.cesu8_decode.specs.Masks.{IsWindow};

pub use super::masks::STEP;
use super::masks::masks_of;
use super::padded::padded;
use crate::strategy::is_one_block;
use cesu8_bytes::BLOCK;
use cesu8_bytes::flavor::Flavor;
use cesu8_bytes::lanes::class::LANES;
use cesu8_bytes::lanes::padded::padded_half;
use std::simd::prelude::*;

/// The events of a window, as masks, and its length.
#[derive(Clone, Copy)]
pub struct Window {
    /// The ill-formed bytes: those that no character covers.
    pub ill_formed: u64,
    /// The starts of surrogate pairs.
    pub pairs: u64,
    /// The starts of C0 80, in MUTF-8.
    pub nulls: u64,
    /// The number of bytes: the offsets that were tested, and the rest of the last character.
    pub len: usize,
}

/// Returns the window of the characters that begin at the next `count` offsets: up to `STEP`, so
/// that they end within 64 bytes, or up to 64 if the five bytes after those are zeros or missing.
#[inline(always)]
pub fn window_at<F: Flavor>(bytes: &[u8], at: usize, count: usize) -> Window
    requires bytes { at + LANES ≤ length bytes.now }
    requires boundary { is_boundary_at F.flavor (window_of bytes.now) at ≡ true }
    requires count { (count ≤ STEP) ⊎ ((count ≤ LANES)
        × ((i : ℕ) → at + LANES ≤ i → i < at + LANES + 5 → slice_index bytes.now i ≡ 0)) }
    ensures window { (is : IsWindow F.flavor bytes.now at result) × (is.n ≡ count) }
    ensures count { (count ≤ result.len) × (result.len ≤ count + 5) }
{
    window_of_lanes::<F, LANES>(u8x64::from_slice(&bytes[at..]), count)
}

/// Returns the window of at most 64 bytes, the whole input. Up to 32 need only half a vector.
#[inline(always)]
pub fn window_of_short<F: Flavor>(bytes: &[u8]) -> Window
    requires { length bytes.now ≤ LANES }
    ensures window { (is : IsWindow F.flavor bytes.now 0 result) × (is.n ≡ length bytes.now) }
    ensures len { result.len ≡ length bytes.now }
{
    if is_one_block(bytes) {
        window_of_padded::<F, BLOCK>(bytes, padded_half(bytes))
    } else {
        window_of_padded::<F, LANES>(bytes, padded(bytes))
    }
}

/// Returns the window of the whole input, which the lanes are, padded with zeros.
#[inline(always)]
pub fn window_of_padded<F: Flavor, const N: usize>(bytes: &[u8], lanes: Simd<u8, N>) -> Window
    requires few { (length bytes.now ≤ N) × (N ≤ LANES) }
    requires lanes { lanes ≡ bytes.now ++ replicate (N - length bytes.now) 0 }
    ensures window { (is : IsWindow F.flavor bytes.now 0 result) × (is.n ≡ length bytes.now) }
    ensures len { result.len ≡ length bytes.now }
{
    // The length is known, so the compiler drops the code that finds it.
    Window {
        len: bytes.len(),
        ..window_of_lanes::<F, N>(lanes, bytes.len())
    }
}

/// Returns the window of the characters that begin at the first `count` lanes. The promise is about
/// any bytes with a character boundary `at`: if the `count + 5` bytes from there equal the lanes,
/// with zeros after the last lane, this is the window at `at`.
#[inline(always)]
fn window_of_lanes<F: Flavor, const N: usize>(lanes: Simd<u8, N>, count: usize) -> Window
    requires lanes { N ≤ LANES }
    requires count { count ≤ N }
    ensures { (bytes : List ℕ) → (at : ℕ)
        → ((i : ℕ) → i < count + 5 → slice_index lanes.entry i ≡ slice_index bytes (at + i))
        → is_boundary_at F.flavor (window_of bytes) at ≡ true
        → (is : IsWindow F.flavor bytes at result) × (is.n ≡ count) }
{
    let masks = masks_of::<F, N>(lanes, count);
    // A surrogate pair covers the same bytes as two characters of three bytes.
    let threes = masks.threes | masks.pairs | (masks.pairs << 3);
    let begins = masks.twos | masks.nulls | threes;
    let covered = begins | (begins << 1) | (threes << 2);
    // After 64 offsets the bytes are zeros (see `window_at`), so no character goes on there.
    let rest = if count == LANES {
        0
    } else {
        (covered >> count).trailing_ones() as usize
    };
    Window {
        ill_formed: masks.others & !covered,
        pairs: masks.pairs,
        nulls: masks.nulls,
        len: count + rest,
    }
}
