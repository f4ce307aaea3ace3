//! Decodes to a caller's slice, without allocation. After an error the slice is unchanged, and
//! after success the bytes after the text are unchanged.
//!
//! Vectors store bytes after the text, so input of up to 1,024 bytes, or 4,096 in lossy decoding,
//! is decoded to an array and copied from there. For longer input a first pass finds out whether
//! decoding succeeds: strict decoding validates all bytes, and also counts the length if the slice
//! is shorter than the input. Lossy decoding always counts the length.

ghost use Rattle.std.specs.Prelude.{◌≡◌, ◌+◌, ◌≤◌, ◌<◌, ◌++◌, length, drop};
ghost use Rattle.cesu8_bytes.specs.Puts.{PutsAnswer};
ghost use Rattle.cesu8_bytes.specs.declared.strictness.Strictness.TheVariants.{Strict, Lossy};
ghost use Rattle.cesu8_decode.specs.Decoding.{room_for, room_for_short};
ghost use Rattle.cesu8_decode.specs.Following.{Unchanged as AllUnchanged};
ghost use Rattle.cesu8_decode.specs.Prefixes.{IsLongestPrefix, IsProperPrefix};
ghost use Rattle.cesu8_decode.specs.PutReadings.{PutsReading};

use super::chunks::put_chunks;
use crate::error::WriteError;
use crate::lanes::character_set::Unchanged;
use crate::lengths::lossy_len;
use crate::needs_conversion::begins_changed;
use crate::pass::short::{SHORT_LOSSY, SHORT_STRICT, write_short};
use crate::pass::windows::{
    LARGE_LOSSY, LARGE_STRICT, LARGEST_LOSSY, SMALL_LOSSY, SMALL_STRICT, write_all,
};
use crate::prefix::{UnchangedPrefix, may_be_crossed, unchanged_prefix_by_call};
use crate::strategy::{Strategy, strategy_of};
use crate::valid::is_ill_formed;
use cesu8_bytes::flavor::Flavor;
use cesu8_bytes::lanes::class::LANES;
use cesu8_bytes::lanes::short::{are_short, copy_short};
use cesu8_bytes::strictness::{LossyReading, Reading, StrictReading, Strictness};
use cesu8_bytes::writing::copies::{NoRoom, copy_to_slice};

/// Writes the strictly decoded text to a caller's slice and returns its length. Returns an error if
/// a byte is ill-formed or the slice is too short.
#[inline(always)]
pub fn put_strictly<F: Flavor>(
    bytes: &[u8],
    prefix: UnchangedPrefix,
    buf: &mut [u8],
) -> Result<usize, WriteError>
    requires { IsProperPrefix F.flavor bytes.now prefix }
    ensures { PutsReading F.flavor Strict bytes.now result buf.old buf.new }
{
    // The prefix is not all of the bytes. So if no character needs conversion, a byte is
    // ill-formed. The mask `changed` is also 0 if a byte is ill-formed.
    if are_short(bytes) {
        if prefix.changed == 0 {
            return Err(WriteError::NoText);
        }
        return put_short::<F, StrictReading, SHORT_STRICT>(bytes, prefix, buf);
    }
    put_after_prefix::<F>(bytes, prefix.len, buf)
}

/// Writes the strictly decoded text of more than 64 bytes, of which the first `prefix` are
/// unchanged. It is not inlined, so that shorter input has few registers to save.
#[inline(never)]
fn put_after_prefix<F: Flavor>(
    bytes: &[u8],
    prefix: usize,
    buf: &mut [u8],
) -> Result<usize, WriteError>
    requires prefix { IsLongestPrefix AllUnchanged F.flavor bytes.now prefix × (prefix < length bytes.now) }
    ensures { PutsReading F.flavor Strict bytes.now result buf.old buf.new }
{
    let rest = &bytes[prefix..];
    if !begins_changed::<F>(rest) {
        return Err(WriteError::NoText);
    }
    // If the slice is shorter than the prefix, no byte is left for the text of the rest, which has
    // at least one. So the result is an error.
    let start = prefix.min(buf.len());
    match put_by_strategy::<F>(rest, &mut buf[start..]) {
        Ok(len) => {
            copy_short_by_call(&bytes[..prefix], buf);
            Ok(prefix + len)
        }
        Err(WriteError::NoRoom(no_room)) => Err(WriteError::NoRoom(NoRoom {
            needed: prefix + no_room.needed,
        })),
        Err(WriteError::NoText) => Err(WriteError::NoText),
        Err(WriteError::TooLong) => Err(WriteError::TooLong),
    }
}

/// Like `put_strictly`, for lossy decoding. It is not inlined, so that a call that copies its input
/// saves no register for it.
#[inline(never)]
pub fn put_lossily<F: Flavor>(
    bytes: &[u8],
    prefix: UnchangedPrefix,
    buf: &mut [u8],
) -> Result<usize, WriteError>
    requires { IsProperPrefix F.flavor bytes.now prefix }
    ensures { PutsReading F.flavor Lossy bytes.now result buf.old buf.new }
{
    match strategy_of(bytes) {
        Strategy::Short => put_short::<F, LossyReading, SHORT_LOSSY>(bytes, prefix, buf),
        Strategy::SmallArray => put_by_array::<F, LossyReading, SMALL_LOSSY>(bytes, buf),
        Strategy::LargeArray => put_by_array::<F, LossyReading, LARGE_LOSSY>(bytes, buf),
        Strategy::LargestArray => put_by_array::<F, LossyReading, LARGEST_LOSSY>(bytes, buf),
        Strategy::Chunks => put_many::<F, LossyReading>(bytes, buf),
    }
}

/// Writes the strictly decoded text, which is no longer than the input.
#[inline(always)]
fn put_by_strategy<F: Flavor>(bytes: &[u8], buf: &mut [u8]) -> Result<usize, WriteError>
    ensures { PutsReading F.flavor Strict bytes.now result buf.old buf.new }
{
    match strategy_of(bytes) {
        Strategy::Short => put_rest::<F>(bytes, buf),
        // Input that ends within a character, except after the first half of a surrogate pair, is
        // rejected before all of it is decoded.
        _ if may_be_crossed::<Unchanged>(bytes, bytes.len()) => Err(WriteError::NoText),
        Strategy::SmallArray => put_by_array::<F, StrictReading, SMALL_STRICT>(bytes, buf),
        Strategy::LargeArray => put_by_array::<F, StrictReading, LARGE_STRICT>(bytes, buf),
        Strategy::LargestArray | Strategy::Chunks => put_many::<F, StrictReading>(bytes, buf),
    }
}

/// Writes the strictly decoded text of the last bytes, at most 64. It is a function of its own: in
/// its caller, the compiler would store each result and load it again.
#[inline(always)]
fn put_rest<F: Flavor>(bytes: &[u8], buf: &mut [u8]) -> Result<usize, WriteError>
    requires { length bytes.now ≤ LANES }
    ensures { PutsReading F.flavor Strict bytes.now result buf.old buf.new }
{
    let prefix = unchanged_prefix_by_call::<F>(bytes);
    if prefix.len == bytes.len() {
        return copy_by_call(bytes, buf).map_err(WriteError::NoRoom);
    }
    put_short::<F, StrictReading, SHORT_STRICT>(bytes, prefix, buf)
}

/// Writes the decoded text of at most 64 bytes to an array, and copies it from there.
#[inline(always)]
fn put_short<F: Flavor, S: Reading, const WRITTEN: usize>(
    bytes: &[u8],
    prefix: UnchangedPrefix,
    buf: &mut [u8],
) -> Result<usize, WriteError>
    requires short { length bytes.now ≤ LANES }
    requires prefix { IsProperPrefix F.flavor bytes.now prefix }
    requires room { (room_for_short S.which ≤ WRITTEN) × (WRITTEN ≤ SHORT_LOSSY) }
    ensures { PutsReading F.flavor S.which bytes.now result buf.old buf.new }
{
    let mut written = [0; WRITTEN];
    let Ok(end) = write_short::<F, S>(bytes, prefix, &mut written) else {
        return Err(WriteError::NoText);
    };
    copy_by_call(&written[..end], buf).map_err(WriteError::NoRoom)
}

/// Like `put_short`, for more bytes. It is not inlined, so that only a call clears the array.
#[inline(never)]
fn put_by_array<F: Flavor, S: Reading, const WRITTEN: usize>(
    bytes: &[u8],
    buf: &mut [u8],
) -> Result<usize, WriteError>
    requires { (room_for S.which (length bytes.now) ≤ WRITTEN) × (WRITTEN ≤ LARGEST_LOSSY) }
    ensures { PutsReading F.flavor S.which bytes.now result buf.old buf.new }
{
    let mut written = [0; WRITTEN];
    let Ok(end) = write_all::<F, S>(bytes, &mut written) else {
        return Err(WriteError::NoText);
    };
    copy_by_call(&written[..end], buf).map_err(WriteError::NoRoom)
}

/// Like `copy_to_slice`, but copies by a call: paths for each range of lengths make the code long.
#[inline(always)]
pub fn copy_by_call(bytes: &[u8], buf: &mut [u8]) -> Result<usize, NoRoom>
    ensures { PutsAnswer bytes.now result buf.old buf.new }
{
    let len = bytes.len();
    if buf.len() < len {
        return Err(NoRoom { needed: len });
    }
    copy_short_by_call(bytes, buf);
    Ok(len)
}

/// Like `copy_to_slice`, but calls a function to copy more than 64 bytes.
#[inline(always)]
pub fn copy_short_or_call(bytes: &[u8], buf: &mut [u8]) -> Result<usize, NoRoom>
    ensures { PutsAnswer bytes.now result buf.old buf.new }
{
    if are_short(bytes) {
        return copy_to_slice(bytes, buf);
    }
    copy_by_call(bytes, buf)
}

/// Calls `copy_short`, whose code is long.
#[inline(never)]
fn copy_short_by_call(bytes: &[u8], buf: &mut [u8])
    requires { length bytes.now ≤ length buf.old }
    ensures { buf.new ≡ bytes.now ++ drop (length bytes.now) buf.old }
{
    copy_short(bytes, buf);
}

/// Writes the text of more bytes than are decoded to an array. If none is ill-formed, the lossily
/// decoded text is the strictly decoded text, which fits a slice as long as the input. It is not
/// inlined, so that shorter input has few registers to save.
#[inline(never)]
fn put_many<F: Flavor, S: Reading>(bytes: &[u8], buf: &mut [u8]) -> Result<usize, WriteError>
    ensures { PutsReading F.flavor S.which bytes.now result buf.old buf.new }
{
    if let Strictness::Strict = S::strictness() {
        if is_ill_formed::<F>(bytes) {
            return Err(WriteError::NoText);
        }
        if bytes.len() <= buf.len() {
            return Ok(put_chunks::<F>(bytes, buf));
        }
    }
    match lossy_len::<F>(bytes) {
        Some(len) if len <= buf.len() => Ok(put_chunks::<F>(bytes, buf)),
        Some(len) => Err(WriteError::NoRoom(NoRoom { needed: len })),
        None => Err(WriteError::TooLong),
    }
}
