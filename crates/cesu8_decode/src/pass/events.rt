//! Writes the text of a window.
//!
//! An event is a surrogate pair, C0 80 in MUTF-8, or a run of ill-formed bytes. The masks of a
//! window give one bit for the first byte of each, so one loop over the set bits finds all events
//! in order. The bytes between two events are unchanged in UTF-8, and are copied.

ghost use Rattle.std.specs.Prelude.{◌≡◌, ◌+◌, ◌*◌, ◌<◌, ◌≤◌, true, false, length, take, drop, replicate};
ghost use Rattle.cesu8_text.specs.Text.{utf8};
ghost use Rattle.cesu8_bytes.specs.Puts.{WritesAt};
ghost use Rattle.cesu8_decode.specs.DecodedOffsets.{decoded, window_of, width_at};
ghost use Rattle.cesu8_decode.specs.Decoding.{WritesWindow, most_of_window};
ghost use Rattle.cesu8_decode.specs.Masks.{HoldWindow, is_null_at, is_pair_at};

mod dense_nulls;
mod replaced;

use crate::lanes::windows::Window;
use cesu8_bytes::BLOCK;
use cesu8_bytes::flavor::Flavor;
use cesu8_bytes::lanes::class::LANES;
use cesu8_bytes::pairs::{PAIR, PAIR_READ, PAIR_UTF8, utf8_of_pair};
use cesu8_bytes::writing::offsets::{put, put_lanes};
use dense_nulls::write_nulls;
use replaced::{REPLACEMENT, write_replaced};
use std::simd::prelude::*;

/// How many bytes can be stored after the text of a window.
pub const STORED_AFTER: usize = LANES;

/// The length of C0 80.
const NULL: usize = 2;
/// The length of its character in UTF-8.
const NULL_UTF8: usize = 1;

/// How many replacement characters one store writes.
const AT_ONCE: usize = 10;
/// The replacement character ten times, and the first two bytes of it.
const REPLACEMENTS: [u8; 32] = [
    0xEF, 0xBF, 0xBD, 0xEF, 0xBF, 0xBD, 0xEF, 0xBF, 0xBD, 0xEF, 0xBF, 0xBD, 0xEF, 0xBF, 0xBD, 0xEF,
    0xBF, 0xBD, 0xEF, 0xBF, 0xBD, 0xEF, 0xBF, 0xBD, 0xEF, 0xBF, 0xBD, 0xEF, 0xBF, 0xBD, 0xEF, 0xBF,
];

/// If a window has at least this many C0 80, and no other event, shuffles pack it.
pub const MANY_NULLS: u32 = 4;
/// Like `MANY_NULLS`, for runs of ill-formed bytes. Fewer runs are faster to write one by one.
const MANY_RUNS: u32 = 5;

/// Writes the text of a window that has no ill-formed byte, and returns its end.
#[inline(always)]
pub fn write_well_formed_events<F: Flavor>(
    bytes: &[u8],
    at: usize,
    window: Window,
    out: &mut [u8],
    end: usize,
) -> usize
    requires window { HoldWindow F.flavor bytes.now at LANES window }
    requires whole { window.ill_formed ≡ 0 }
    requires room { end + LANES + STORED_AFTER ≤ length out.old }
    ensures { WritesWindow F.flavor bytes.now at window end out.old out.new result }
{
    if window.pairs == 0 && window.nulls.count_ones() >= MANY_NULLS {
        return write_nulls::<F>(bytes, at, window, out, end);
    }
    write_in_turn::<F, LANES>(bytes, at, window, out, end)
}

/// Writes the text of any window, and returns its end. It is meant for one with ill-formed bytes.
#[inline(always)]
#[tactic(auto, using(std::proofs::lemmas::Nat::le_or_l, std::proofs::lemmas::Nat::le_or_r))]
pub fn write_ill_formed_events<F: Flavor>(
    bytes: &[u8],
    at: usize,
    window: Window,
    out: &mut [u8],
    end: usize,
) -> usize
    requires window { HoldWindow F.flavor bytes.now at LANES window }
    requires room { end + REPLACEMENT * LANES + STORED_AFTER ≤ length out.old }
    ensures { WritesWindow F.flavor bytes.now at window end out.old out.new result }
{
    let changed = window.pairs | window.nulls;
    let runs = window.ill_formed & !(window.ill_formed << 1);
    if changed == 0 && runs.count_ones() >= MANY_RUNS {
        return write_replaced::<F>(bytes, at, window, out, end);
    }
    write_in_turn::<F, LANES>(bytes, at, window, out, end)
}

/// Writes the events one after another, and copies the bytes between them. If `ill_formed` is known
/// to be 0, it is compiled without the code that replaces ill-formed bytes.
#[inline(always)]
pub fn write_in_turn<F: Flavor, const WIDTH: usize>(
    bytes: &[u8],
    at: usize,
    window: Window,
    out: &mut [u8],
    end: usize,
) -> usize
    requires width { (BLOCK ≤ WIDTH) × (WIDTH ≤ LANES) }
    requires window { HoldWindow F.flavor bytes.now at WIDTH window }
    requires room { end + most_of_window window + WIDTH ≤ length out.old }
    ensures { WritesWindow F.flavor bytes.now at window end out.old out.new result }
{
    let ill_formed = window.ill_formed;
    let mut events = window.pairs | window.nulls | ill_formed & !(ill_formed << 1);
    let mut read = 0;
    let mut end = end;
    while events != 0 {
        let next = events.trailing_zeros() as usize;
        events &= events - 1;
        let copied = copy_between::<WIDTH>(bytes, at + read, next - read, out, end);
        let run = (ill_formed >> next).trailing_ones() as usize;
        (read, end) = if run != 0 {
            (next + run, put_replacements(run, out, copied))
        } else {
            let is_null = window.nulls >> next & 1 != 0;
            let (len, end) = write_changed::<F>(bytes, at + next, is_null, out, copied);
            (next + len, end)
        };
    }
    copy_between::<WIDTH>(bytes, at + read, window.len - read, out, end)
}

/// Copies `count` bytes, at most `WIDTH`, from an offset on, and returns their end. It always
/// stores `WIDTH` bytes, so that no branch depends on the count.
#[inline(always)]
fn copy_between<const WIDTH: usize>(
    bytes: &[u8],
    at: usize,
    count: usize,
    out: &mut [u8],
    end: usize,
) -> usize
    requires width { WIDTH ≤ LANES }
    requires count { count ≤ WIDTH }
    requires bytes { at + WIDTH ≤ length bytes.now }
    requires room { end + WIDTH ≤ length out.old }
    ensures { WritesAt (take count (drop at bytes.now)) end out.old out.new result }
{
    put_lanes(Simd::<u8, WIDTH>::from_slice(&bytes[at..]), out, end);
    end + count
}

/// Writes the C0 80 or surrogate pair at `at` as UTF-8, and returns its length and the text's end.
#[inline(always)]
fn write_changed<F: Flavor>(
    bytes: &[u8],
    at: usize,
    is_null: bool,
    out: &mut [u8],
    end: usize,
) -> (usize, usize)
    requires bytes { at + PAIR_READ ≤ length bytes.now }
    requires null { is_null ≡ true → is_null_at F.flavor bytes.now at ≡ true }
    requires pair { is_null ≡ false → is_pair_at F.flavor bytes.now at ≡ true }
    requires room { end + PAIR_UTF8 ≤ length out.old }
    ensures width { (result.0 ≡ width_at F.flavor bytes.now at) × (0 < result.0) }
    ensures written { WritesAt (decoded F.flavor (window_of bytes.now) at result.0)
        end out.old out.new result.1 }
{
    // Computes the UTF-8 of a pair even if there is none, and chooses by `is_null` after that. A
    // branch would be mispredicted if pairs and C0 80 alternate.
    let pair = u32::from_le_bytes(utf8_of_pair(&bytes[at..]));
    let (len, utf8, written) = if is_null {
        (NULL, 0, NULL_UTF8)
    } else {
        (PAIR, pair, PAIR_UTF8)
    };
    put(&utf8.to_le_bytes(), out, end);
    (len, end + written)
}

/// Writes `count` replacement characters and returns their end. Bytes after it are overwritten too.
#[inline(always)]
fn put_replacements(count: usize, out: &mut [u8], end: usize) -> usize
    requires count { count ≤ LANES }
    requires room { end + REPLACEMENT * count + BLOCK ≤ length out.old }
    ensures { WritesAt (utf8 (replicate count 0xFFFD)) end out.old out.new result }
{
    let replacements = u8x32::from_array(REPLACEMENTS);
    let mut left = count;
    let mut end = end;
    while left > AT_ONCE {
        put_lanes(replacements, out, end);
        end += REPLACEMENT * AT_ONCE;
        left -= AT_ONCE;
    }
    put_lanes(replacements, out, end);
    end + REPLACEMENT * left
}
