//! Decodes to a vector, whose bytes are proved to be UTF-8.
//!
//! For strict decoding the caller has allocated as many bytes as the input has. Lossy decoding
//! allocates exactly the length of the text: the text of the first bytes is decoded to an array on
//! the stack, which gives its length, and only the rest needs a pass for the length.

ghost use Rattle.std.specs.Prelude.{◌≡◌, ◌<◌, ◌≤◌, ◌++◌, [], length, vec_capacity};
ghost use Rattle.cesu8_text.specs.Encoding.{Flavor as AnyFlavor};
ghost use Rattle.cesu8_text.specs.Laws.{NoneCrosses};
ghost use Rattle.cesu8_bytes.specs.declared.strictness.Strictness.TheVariants.{Strict, Lossy};
ghost use Rattle.cesu8_decode.specs.Decoding.{BuildsReading, AppendsReading, room_for};
ghost use Rattle.cesu8_decode.specs.Following.{Unchanged};
ghost use Rattle.cesu8_decode.specs.Prefixes.{IsLongestPrefix, IsProperPrefix};

use super::chunks::{append_by_call, append_chunks};
use super::strict_append::{append_many, append_short_strictly};
use crate::lengths::lossy_len;
use crate::needs_conversion::may_lead_changed;
use crate::pass::short::{SHORT_LOSSY, write_short};
use crate::pass::windows::{LARGE_LOSSY, LARGEST_LOSSY, SMALL_LOSSY, write_all};
use crate::prefix::UnchangedPrefix;
use crate::strategy::{LARGEST_ARRAY, Strategy, strategy_of};
use cesu8_bytes::BLOCK;
use cesu8_bytes::flavor::Flavor;
use cesu8_bytes::lanes::class::LANES;
use cesu8_bytes::lanes::short::are_short;
use cesu8_bytes::strictness::{LossyReading, NoText};
use cesu8_bytes::writing::copies::copy;
use std::alloc::{AllocError, Global};

/// Writes the strictly decoded text to an empty vector. It is an error if a byte is ill-formed.
#[inline(always)]
pub fn write_strictly<F: Flavor>(
    bytes: &[u8],
    prefix: UnchangedPrefix,
    empty: Vec<u8>,
) -> Result<Vec<u8>, NoText>
    requires prefix { IsProperPrefix F.flavor bytes.now prefix }
    requires empty { (empty.items ≡ []) × (length bytes.now ≤ vec_capacity empty) }
    ensures { AppendsReading F.flavor Strict bytes.now empty result }
{
    // Some bytes follow the prefix. So a character that needs conversion follows it, or else a byte
    // is ill-formed. Of at most 64 bytes the mask `changed` is 0 exactly if one is ill-formed.
    if are_short(bytes) {
        if prefix.changed == 0 {
            return Err(NoText);
        }
        return append_short_strictly::<F>(bytes, prefix, empty);
    }
    if !may_lead_changed(bytes[prefix.len]) {
        return Err(NoText);
    }
    write_many::<F>(bytes, prefix.len, empty)
}

/// Writes the text of more than 64 bytes. It is split off from `write_strictly`, so that at most 64
/// bytes skip the zeroing of result slots: a function zeroes them first, even if it is inlined.
#[inline(always)]
fn write_many<F: Flavor>(bytes: &[u8], prefix: usize, empty: Vec<u8>) -> Result<Vec<u8>, NoText>
    requires many { LANES < length bytes.now }
    requires prefix { IsLongestPrefix Unchanged F.flavor bytes.now prefix }
    requires empty { (empty.items ≡ []) × (length bytes.now ≤ vec_capacity empty) }
    ensures { AppendsReading F.flavor Strict bytes.now empty result }
{
    append_many::<F>(bytes, prefix, empty)
}

/// Returns the lossily decoded text. Allocates once, exactly its length.
#[inline(always)]
pub fn build_lossily<F: Flavor>(
    alloc: Global,
    bytes: &[u8],
    prefix: UnchangedPrefix,
) -> Result<Vec<u8>, AllocError>
    requires { IsProperPrefix F.flavor bytes.now prefix }
    ensures { BuildsReading F.flavor bytes.now result }
{
    match strategy_of(bytes) {
        Strategy::Short => build_short::<F>(alloc, bytes, prefix),
        Strategy::SmallArray => build_by_array::<F, SMALL_LOSSY>(alloc, bytes),
        Strategy::LargeArray => build_by_array::<F, LARGE_LOSSY>(alloc, bytes),
        Strategy::LargestArray => build_by_array::<F, LARGEST_LOSSY>(alloc, bytes),
        Strategy::Chunks => build_chunks::<F>(alloc, bytes),
    }
}

/// Builds the text of at most 64 bytes. It is not inlined, so that only a call clears the array.
#[inline(never)]
fn build_short<F: Flavor>(
    alloc: Global,
    bytes: &[u8],
    prefix: UnchangedPrefix,
) -> Result<Vec<u8>, AllocError>
    requires short { length bytes.now ≤ LANES }
    requires prefix { IsProperPrefix F.flavor bytes.now prefix }
    ensures { BuildsReading F.flavor bytes.now result }
{
    let mut written = [0; SHORT_LOSSY];
    let Ok(end) = write_short::<F, LossyReading>(bytes, prefix, &mut written);
    copy(alloc, &written[..end])
}

/// Like `build_short`, for more bytes, whose text fits in the array. It is not inlined either.
#[inline(never)]
fn build_by_array<F: Flavor, const WRITTEN: usize>(
    alloc: Global,
    bytes: &[u8],
) -> Result<Vec<u8>, AllocError>
    requires { (room_for Lossy (length bytes.now) ≤ WRITTEN) × (WRITTEN ≤ LARGEST_LOSSY) }
    ensures { BuildsReading F.flavor bytes.now result }
{
    let mut written = [0; WRITTEN];
    let Ok(end) = write_all::<F, LossyReading>(bytes, &mut written);
    copy(alloc, &written[..end])
}

/// Builds the text of more than 4,096 bytes. A length that does not fit `usize` is reported as a
/// failed allocation. The first part is decoded before the rest is counted.
#[inline(never)]
fn build_chunks<F: Flavor>(alloc: Global, bytes: &[u8]) -> Result<Vec<u8>, AllocError>
    requires { LARGEST_ARRAY < length bytes.now }
    ensures { BuildsReading F.flavor bytes.now result }
{
    let (first, rest) = first_part(bytes);
    let mut written = [0; LARGEST_LOSSY];
    let Ok(end) = write_all::<F, LossyReading>(first, &mut written);
    let rest_len = lossy_len::<F>(rest).ok_or(AllocError)?;
    let len = end.checked_add(rest_len).ok_or(AllocError)?;
    let mut text = Vec::with_capacity(alloc, len)?;
    append_by_call(&written[..end], &mut text);
    let Ok(text) = append_chunks::<F, LossyReading>(rest, text);
    Ok(text)
}

/// Splits the bytes at a character boundary, which is sought among the last 32 offsets up to
/// `LARGEST_ARRAY`. If none is found, the first part is empty.
#[inline(always)]
fn first_part(bytes: &[u8]) -> (&[u8], &[u8])
    requires { LARGEST_ARRAY < length bytes.now }
    ensures first { length result.0.now ≤ LARGEST_ARRAY }
    ensures parts { result.0.now ++ result.1.now ≡ bytes.now }
    ensures apart { (f : AnyFlavor) → NoneCrosses f result.0.now result.1.now }
{
    let mut at = LARGEST_ARRAY;
    while at > LARGEST_ARRAY - BLOCK {
        // ED can begin the second half of a surrogate pair.
        let byte = bytes[at];
        if (byte < 0x80 || byte >= 0xC0) && byte != 0xED {
            return bytes.split_at(at);
        }
        at -= 1;
    }
    bytes.split_at(0)
}
