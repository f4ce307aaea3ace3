//! Writes the text of one window: `window_at` finds its events and its end, and `events` writes it.
//!
//! A window begins and ends at character boundaries, so one can be written after another. In strict
//! decoding a window with an ill-formed byte is not written.

ghost use Rattle.std.specs.Prelude.{◌≡◌, ℕ, ◌+◌, ◌-◌, ◌≤◌, ◌⊎◌, true, false, length, slice_index};
ghost use Rattle.cesu8_decode.specs.Decoding.{WritesDecoded};
ghost use Rattle.cesu8_decode.specs.DecodedOffsets.{is_boundary_at, window_of};

use crate::lanes::windows::{STEP, window_at};
use crate::pass::events::{STORED_AFTER, write_ill_formed_events, write_well_formed_events};
use cesu8_bytes::flavor::Flavor;
use cesu8_bytes::lanes::class::LANES;
use cesu8_bytes::strictness::Strictness;

/// The most bytes that are written for one byte: the length of the replacement character.
pub const WIDEST: usize = 3;

/// The space that `write_window` needs: for the longest text, and for what is stored after it.
pub const ROOM: usize = WIDEST * LANES + STORED_AFTER;

/// The most bytes that a window can read after its `count` bytes: the last ones of a character.
pub const READ_AFTER: usize = LANES - STEP;

/// How many bytes were read, the end of their text, and whether strict decoding rejects one.
#[derive(Drop)]
pub struct Written {
    pub read: usize,
    pub end: usize,
    pub is_rejected: bool,
    /// Whether the window has no event, so that its bytes were copied.
    pub is_unchanged: bool,
}

/// Writes the text of the next `count` bytes and of the rest of a character that begins in them. If
/// `count` is more than `STEP`, these bytes are the last ones of the input, and zeros follow them.
/// Vectors can load up to `LANES` bytes after those that are read.
#[inline(always)]
pub fn write_window<F: Flavor>(
    bytes: &[u8],
    at: usize,
    count: usize,
    strictness: Strictness,
    out: &mut [u8],
    end: usize,
) -> Written
    requires bytes { at + count + READ_AFTER + LANES ≤ length bytes.now }
    requires boundary { is_boundary_at F.flavor (window_of bytes.now) at ≡ true }
    requires count { (count ≤ STEP) ⊎ ((count ≤ LANES)
        × ((i : ℕ) → at + count ≤ i → slice_index bytes.now i ≡ 0)) }
    requires room { end + ROOM ≤ length out.old }
    ensures written { WritesDecoded F.flavor strictness (window_of bytes.now) at result.read
        end out.old out.new result.end result.is_rejected }
    ensures boundary { is_boundary_at F.flavor (window_of bytes.now) (at + result.read) ≡ true }
    ensures count { (count ≤ result.read) × (result.read ≤ count + READ_AFTER)
        × (result.read ≤ LANES) }
    ensures last { slice_index bytes.now (at + count) ≡ 0 → result.read ≡ count }
    ensures unchanged { result.is_unchanged ≡ true → result.is_rejected ≡ false }
{
    let window = window_at::<F>(bytes, at, count);
    if window.ill_formed != 0 && matches!(strictness, Strictness::Strict) {
        return Written {
            read: window.len,
            end,
            is_rejected: true,
            is_unchanged: false,
        };
    }
    let end = if window.ill_formed == 0 {
        write_well_formed_events::<F>(bytes, at, window, out, end)
    } else {
        write_ill_formed_events::<F>(bytes, at, window, out, end)
    };
    Written {
        read: window.len,
        end,
        is_rejected: false,
        is_unchanged: window.ill_formed | window.pairs | window.nulls == 0,
    }
}
