//! Writes the text of a window that has many runs of ill-formed bytes, and no other event.
//!
//! Four bytes at a time are packed by a shuffle that puts the replacement character in place of
//! each ill-formed byte, with no branch on a byte.

ghost use Rattle.std.specs.Prelude.{◌≡◌, List, Bool, ◌+◌, ◌*◌, ◌<◌, ◌≤◌, false, length, take, replicate};
ghost use Rattle.std.specs.Simd.Lanes.{mask_l};
ghost use Rattle.cesu8_bytes.specs.Packing.{written, kept_of, lanes_at};
ghost use Rattle.cesu8_bytes.specs.Puts.{WritesAt};
ghost use Rattle.cesu8_decode.specs.Decoding.{WritesWindow};
ghost use Rattle.cesu8_decode.specs.Masks.{HoldWindow, AreShufflesOfReplaced};

use crate::lanes::windows::Window;
use cesu8_bytes::flavor::Flavor;
use cesu8_bytes::lanes::class::LANES;
use cesu8_bytes::writing::packing::{HALF, STORED, picked, second_of};
use std::simd::prelude::*;

/// The shuffles for four bytes, in lanes 0 to 3. Lanes 4 to 6 hold U+FFFD. In row `d` it takes the
/// place of byte `i` if bit `i` of `d` is set. The last number is how many bytes the row writes.
const ROWS: [[u8; 16]; 16] = [
    [0, 1, 2, 3, 0, 0, 0, 0, 0, 0, 0, 0, 0, 0, 0, 4],
    [4, 5, 6, 1, 2, 3, 0, 0, 0, 0, 0, 0, 0, 0, 0, 6],
    [0, 4, 5, 6, 2, 3, 0, 0, 0, 0, 0, 0, 0, 0, 0, 6],
    [4, 5, 6, 4, 5, 6, 2, 3, 0, 0, 0, 0, 0, 0, 0, 8],
    [0, 1, 4, 5, 6, 3, 0, 0, 0, 0, 0, 0, 0, 0, 0, 6],
    [4, 5, 6, 1, 4, 5, 6, 3, 0, 0, 0, 0, 0, 0, 0, 8],
    [0, 4, 5, 6, 4, 5, 6, 3, 0, 0, 0, 0, 0, 0, 0, 8],
    [4, 5, 6, 4, 5, 6, 4, 5, 6, 3, 0, 0, 0, 0, 0, 10],
    [0, 1, 2, 4, 5, 6, 0, 0, 0, 0, 0, 0, 0, 0, 0, 6],
    [4, 5, 6, 1, 2, 4, 5, 6, 0, 0, 0, 0, 0, 0, 0, 8],
    [0, 4, 5, 6, 2, 4, 5, 6, 0, 0, 0, 0, 0, 0, 0, 8],
    [4, 5, 6, 4, 5, 6, 2, 4, 5, 6, 0, 0, 0, 0, 0, 10],
    [0, 1, 4, 5, 6, 4, 5, 6, 0, 0, 0, 0, 0, 0, 0, 8],
    [4, 5, 6, 1, 4, 5, 6, 4, 5, 6, 0, 0, 0, 0, 0, 10],
    [0, 4, 5, 6, 4, 5, 6, 4, 5, 6, 0, 0, 0, 0, 0, 10],
    [4, 5, 6, 4, 5, 6, 4, 5, 6, 4, 5, 6, 0, 0, 0, 12],
];

/// The replacement character, U+FFFD, four times, each in four lanes. Two of them are used.
const REPLACEMENTS: [u8; 16] = [
    0xEF, 0xBF, 0xBD, 0, 0xEF, 0xBF, 0xBD, 0, 0xEF, 0xBF, 0xBD, 0, 0xEF, 0xBF, 0xBD, 0,
];

/// The length of the replacement character in bytes.
pub const REPLACEMENT: usize = 3;

/// Writes the text of a window that has no other events than ill-formed bytes, and returns its end.
#[inline(always)]
pub fn write_replaced<F: Flavor>(
    bytes: &[u8],
    at: usize,
    window: Window,
    out: &mut [u8],
    end: usize,
) -> usize
    requires window { HoldWindow F.flavor bytes.now at LANES window }
    requires replaced { (window.pairs ≡ 0) × (window.nulls ≡ 0) }
    requires room { end + REPLACEMENT * LANES + LANES ≤ length out.old }
    ensures { WritesWindow F.flavor bytes.now at window end out.old out.new result }
{
    let mut written = 0;
    let mut end = end;
    while written < LANES {
        let half = u8x16::from_slice(&bytes[at + written..]);
        end = store_replaced(half, (window.ill_formed >> written) as usize, out, end);
        written += HALF;
    }
    // One byte was also stored for each byte from the end of the window to the 64th.
    end - (written - window.len)
}

/// Stores sixteen bytes, with the replacement character in place of those whose bit is set, and
/// returns the end. The bits above the sixteen are ignored.
#[inline(always)]
#[tactic(auto, using(std::proofs::lemmas::Nat::and_le_r))]
fn store_replaced(bytes: u8x16, ill_formed: usize, out: &mut [u8], at: usize) -> usize
    requires { at + REPLACEMENT * HALF + STORED ≤ length out.old }
    ensures { (tests : List Bool) → HALF ≤ length tests → ill_formed ≡ mask_l tests
        → WritesAt (written (replicate HALF false) (take HALF tests) bytes) at out.old out.new result }
{
    let replacements = u8x16::from_array(REPLACEMENTS);
    let first = bytes.shuffle::<16>(
        replacements,
        [0, 1, 2, 3, 16, 17, 18, 19, 4, 5, 6, 7, 20, 21, 22, 23],
    );
    let third = bytes.shuffle::<16>(
        replacements,
        [8, 9, 10, 11, 16, 17, 18, 19, 12, 13, 14, 15, 20, 21, 22, 23],
    );
    let at = store_four(first, ill_formed & 0x0F, out, at);
    let at = store_four(second_of(first), ill_formed >> 4 & 0x0F, out, at);
    let at = store_four(third, ill_formed >> 8 & 0x0F, out, at);
    store_four(second_of(third), ill_formed >> 12 & 0x0F, out, at)
}

/// Stores four bytes, U+FFFD in place of those whose bit is set, and returns the end.
#[inline(always)]
fn store_four(lanes: u8x16, ill_formed: usize, out: &mut [u8], at: usize) -> usize
    requires small { ill_formed < 0x10 }
    requires room { at + STORED ≤ length out.old }
    ensures kept { WritesAt (lanes_at lanes (kept_of 0 ill_formed 0 4)) at out.old out.new result }
    ensures few { result ≤ at + REPLACEMENT * 4 }
{
    let row = &rows()[ill_formed];
    let packed = picked(lanes, u8x16::from_array(*row));
    packed.copy_to_slice(&mut out[at..]);
    at + row[15] as usize
}

/// Returns a reference to the rows: indexing the constant would copy it to the stack.
#[tactic(auto, using(crate::proofs::decoder::EventsRows::rows_are))]
fn rows() -> &'static [[u8; 16]; 16]
    ensures { AreShufflesOfReplaced result.now }
{
    &ROWS
}
