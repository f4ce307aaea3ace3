//! The decoding loop: writes the text of one window after another.
//!
//! A window begins at the end of the last character of the window before it, so nothing else is
//! carried over, and the pass can stop after any window if the buffer is full. Windows are read in
//! place, but vectors also load bytes after a window. So the last bytes of the input are copied to
//! an array, with zeros after them.

ghost use Rattle.std.specs.Prelude.{◌≡◌, ◌+◌, ◌-◌, ◌*◌, ◌<◌, ◌≤◌, false, length};
ghost use Rattle.cesu8_bytes.specs.declared.strictness.Strictness.{Strictness as AnyStrictness};
ghost use Rattle.cesu8_decode.specs.Decoding.{IsPass, CanGoOn, GoesOn, WritesReading, pass_from, room_for};

use super::window::{READ_AFTER, ROOM, WIDEST, write_window};
use crate::lanes::character_set::Unchanged;
use crate::lanes::windows::STEP;
use crate::prefix::longest_prefix;
use crate::strategy::{LARGE_ARRAY, LARGEST_ARRAY, SMALL_ARRAY};
use cesu8_bytes::flavor::Flavor;
use cesu8_bytes::lanes::class::LANES;
use cesu8_bytes::lanes::short::{are_short, copy_short};
use cesu8_bytes::pairs::{PAIR, PAIR_READ, PAIR_UTF8, is_pair, utf8_of_pair};
use cesu8_bytes::strictness::{Reading, Strictness};
use cesu8_bytes::writing::offsets::put;

// Lengths of buffers: the longest text of so many bytes, and `ROOM`, without which the pass stops.
pub const SMALL_STRICT: usize = SMALL_ARRAY + ROOM;

pub const LARGE_STRICT: usize = LARGE_ARRAY + ROOM;

pub const SMALL_LOSSY: usize = WIDEST * SMALL_ARRAY + ROOM;

pub const LARGE_LOSSY: usize = WIDEST * LARGE_ARRAY + ROOM;

pub const LARGEST_LOSSY: usize = WIDEST * LARGEST_ARRAY + ROOM;

/// How many bytes of input a window in place needs: its own, and as many to load after them.
const IN_PLACE: usize = 2 * LANES;

/// How many bytes before an offset decide whether a character crosses it.
const BEFORE: usize = 5;

/// The length of an array for the last bytes, the five before them, and the zeros after them.
const AROUND: usize = BEFORE + IN_PLACE + READ_AFTER + LANES;

/// How many bytes were read so far, the end of their text, and whether strict decoding rejects one.
#[derive(Drop)]
pub struct Pass {
    pub read: usize,
    pub end: usize,
    pub is_rejected: bool,
}

/// Continues the pass from a character boundary, as long as the buffer has space for another window
/// and strict decoding rejects none. It is not inlined, since it has many callers.
#[inline(never)]
pub fn write_windows<F: Flavor>(
    bytes: &[u8],
    read: usize,
    strictness: Strictness,
    out: &mut [u8],
) -> Pass
    requires pass { IsPass F.flavor bytes.now read }
    requires room { ROOM ≤ length out.old }
    ensures more { GoesOn F.flavor strictness bytes.now (pass_from read) result out.old out.new }
    ensures some { read < length bytes.now → read < result.read }
    ensures all { read ≡ 0 → room_for strictness (length bytes.now) ≤ length out.old
        → result.is_rejected ≡ false → result.read ≡ length bytes.now }
{
    // If the text so far ends at `limit` or before it, the buffer has space for another window.
    let limit = out.len() - ROOM;
    let pairs = write_pairs::<F>(bytes, read, limit, out);
    let pass = write_in_place::<F>(bytes, pairs, strictness, limit, out);
    if pass.is_rejected || pass.end > limit || pass.read == bytes.len() {
        return pass;
    }
    write_last::<F>(bytes, pass, strictness, limit, out)
}

/// Writes the text of all bytes and returns its length, or an error if strict decoding rejects one.
#[inline(always)]
#[tactic(auto, using(crate::proofs::decoder::Passes::at_start))]
pub fn write_all<F: Flavor, S: Reading>(bytes: &[u8], out: &mut [u8]) -> Result<usize, S::Error>
    requires { room_for S.which (length bytes.now) ≤ length out.old }
    ensures { WritesReading F.flavor S.which bytes.now result out.old out.new }
{
    let pass = write_windows::<F>(bytes, 0, S::strictness(), out);
    S::unless_rejected(pass.is_rejected, pass.end)
}

/// Writes the surrogate pairs that come next. If the text is mostly pairs, windows are slower.
#[inline(always)]
fn write_pairs<F: Flavor>(bytes: &[u8], read: usize, limit: usize, out: &mut [u8]) -> Pass
    requires pass { IsPass F.flavor bytes.now read }
    requires room { limit + ROOM ≤ length out.old }
    ensures more { (which : AnyStrictness)
        → GoesOn F.flavor which bytes.now (pass_from read) result out.old out.new }
    ensures fine { result.is_rejected ≡ false }
{
    // The loop reads no pair from `last` on. So at most `limit` bytes are written before each pair,
    // and the loop needs no test of space.
    let stop = read + (bytes.len() - read).min(limit / PAIR_UTF8 * PAIR + PAIR_READ);
    let last = stop.saturating_sub(PAIR_READ - 1);
    let mut at = read;
    let mut end = 0;
    while at < last && is_pair(&bytes[at..]) {
        end = put(&utf8_of_pair(&bytes[at..]), out, end);
        at += PAIR;
    }
    Pass {
        read: at,
        end,
        is_rejected: false,
    }
}

/// Writes windows that are read in place, until the last bytes or as long as there is space.
#[inline(always)]
fn write_in_place<F: Flavor>(
    bytes: &[u8],
    before: Pass,
    strictness: Strictness,
    limit: usize,
    out: &mut [u8],
) -> Pass
    requires before { CanGoOn F.flavor bytes.now before (length out.old) }
    requires room { limit + ROOM ≤ length out.old }
    ensures more { GoesOn F.flavor strictness bytes.now before result out.old out.new }
    ensures fresh { result.read ≡ before.read → result.is_rejected ≡ false }
    ensures last { result.is_rejected ≡ false → result.end ≤ limit
        → length bytes.now < result.read + IN_PLACE }
{
    let mut pass = before;
    let mut was_unchanged = false;
    while !pass.is_rejected && pass.end <= limit && bytes.len() - pass.read >= IN_PLACE {
        let window = write_window::<F>(bytes, pass.read, STEP, strictness, out, pass.end);
        pass = Pass {
            read: pass.read + window.read,
            end: window.end,
            is_rejected: window.is_rejected,
        };
        // After two successive windows without an event, a test for an unchanged run is faster.
        if was_unchanged && window.is_unchanged && pass.end <= limit {
            pass = copy_unchanged::<F>(bytes, pass, limit, out);
        }
        was_unchanged = window.is_unchanged;
    }
    pass
}

/// Copies the next characters that are unchanged in UTF-8, or as many as there is space for. If at
/// most 64 bytes are left or fit, it copies none, since `longest_prefix` requires more.
#[inline(always)]
fn copy_unchanged<F: Flavor>(bytes: &[u8], before: Pass, limit: usize, out: &mut [u8]) -> Pass
    requires before { CanGoOn F.flavor bytes.now before limit }
    requires room { limit ≤ length out.old }
    ensures more { (which : AnyStrictness)
        → GoesOn F.flavor which bytes.now before result out.old out.new }
    ensures fine { result.is_rejected ≡ false }
{
    let rest = &bytes[before.read..];
    let part = &rest[..rest.len().min(limit - before.end)];
    if are_short(part) {
        return before;
    }
    let len = longest_prefix::<F, Unchanged>(part);
    Pass {
        read: before.read + len,
        end: put(&part[..len], out, before.end),
        is_rejected: false,
    }
}

/// Copies the last bytes to an array, and writes their windows as long as there is space.
#[inline(always)]
fn write_last<F: Flavor>(
    bytes: &[u8],
    before: Pass,
    strictness: Strictness,
    limit: usize,
    out: &mut [u8],
) -> Pass
    requires before { CanGoOn F.flavor bytes.now before limit }
    requires last { (before.read < length bytes.now) × (length bytes.now < before.read + IN_PLACE) }
    requires room { limit + ROOM ≤ length out.old }
    ensures more { GoesOn F.flavor strictness bytes.now before result out.old out.new }
    ensures some { before.read < result.read }
    ensures all { result.is_rejected ≡ false → result.end ≤ limit → result.read ≡ length bytes.now }
{
    let first = before.read.saturating_sub(BEFORE);
    let mut last = [0; AROUND];
    copy_short(&bytes[first..], &mut last);
    let mut pass = before;
    while !pass.is_rejected && pass.end <= limit && pass.read < bytes.len() {
        let left = bytes.len() - pass.read;
        let count = if left > LANES { STEP } else { left };
        let window = write_window::<F>(&last, pass.read - first, count, strictness, out, pass.end);
        pass = Pass {
            read: pass.read + window.read,
            end: window.end,
            is_rejected: window.is_rejected,
        };
    }
    pass
}
