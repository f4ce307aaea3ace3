//! The calls for both flavors. Each borrows the input if no byte changes, or builds the result.
//!
//! Decoding first finds how many bytes at the start are the same in UTF-8. A call borrows if these
//! are all bytes, and otherwise decodes the rest. The mode is a type parameter: `EncodingAlone`
//! accepts only the encoding, and `Lenient` also UTF-8 as a whole, which it borrows too.

ghost use Rattle.std.specs.Prelude.{◌↔◌, IsTrue, take};
ghost use Rattle.std.specs.Str.{chars};
ghost use Rattle.cesu8_decode.specs.Modes.{Keeps, Reads, ReadsLossily};
ghost use Rattle.simd_cesu8.specs.Encoding.{NeedsEncoding};
ghost use Rattle.simd_cesu8.specs.Calls.{Encodes, DecodesAs, DecodesLossily, DecodesStrictly};

use crate::codec;
use crate::codec::{
    Accepts, EncodingAlone, Flavor, Lenient, begins_with_unchanged_ascii, known_text,
    needs_encoded, prefix_unless_kept,
};
use crate::cow::{CowBytes, CowText};
use crate::error::DecodeFault;
use std::alloc::{AllocError, Global};

/// Encodes a string, or borrows it if its encoding is its UTF-8.
#[inline(always)]
#[tactic(auto, using(cesu8_text::proofs::encoding::NeedsEncoding::encoding_by_need))]
pub fn encode<F: Flavor>(alloc: Global, value: &str) -> Result<CowBytes<'_>, AllocError>
    ensures { Encodes F.flavor value.now result }
{
    if !is_changed::<F>(value) {
        return Ok(CowBytes::Borrowed(value.as_bytes()));
    }
    let encoded = codec::encode::<F>(alloc, value)?;
    Ok(CowBytes::Owned(encoded))
}

/// Calls `needs_encoded` out of line, to keep `encode` small enough for its callers to inline.
#[inline(never)]
fn is_changed<F: Flavor>(value: &str) -> bool
    ensures { IsTrue result ↔ NeedsEncoding F.flavor (chars value.now) }
{
    needs_encoded::<F>(value)
}

/// Decodes bytes in the mode `A`, and borrows them if they are the text's UTF-8.
#[inline(always)]
pub fn decode_as<F: Flavor, A: Accepts>(
    alloc: Global,
    bytes: &[u8],
) -> Result<CowText<'_>, DecodeFault>
    ensures { DecodesAs (Keeps A.mode F.flavor bytes.now)
        (Reads A.mode F.flavor bytes.now) bytes.now result }
{
    let Some(front) = prefix_unless_kept::<F, A>(bytes) else {
        return Ok(CowText::Borrowed(known_text(bytes)));
    };
    let built = codec::decode_strict::<F>(alloc, bytes, front)?;
    Ok(CowText::Owned(built))
}

/// Decodes the first `len` bytes strictly, or all bytes if there are fewer. The fast path, for
/// short ASCII, loads a vector that may include bytes after them.
#[inline(always)]
pub fn decode_strict_front<F: Flavor>(
    alloc: Global,
    bytes: &[u8],
    len: usize,
) -> Result<CowText<'_>, DecodeFault>
    ensures { DecodesStrictly F.flavor (take len bytes.now) result }
{
    let len = len.min(bytes.len());
    let front = &bytes[..len];
    if begins_with_unchanged_ascii::<F>(bytes, len) {
        return Ok(CowText::Borrowed(known_text(front)));
    }
    decode_strict_by_call::<F>(alloc, front)
}

/// Calls `decode_strict_called`. It is split off so that the fast path skips the zeroing of the
/// result slot: an inlined function zeroes the slot at its own start, which is after the fast path.
#[inline(always)]
fn decode_strict_by_call<F: Flavor>(alloc: Global, bytes: &[u8]) -> Result<CowText<'_>, DecodeFault>
    ensures { DecodesStrictly F.flavor bytes.now result }
{
    decode_strict_called::<F>(alloc, bytes)
}

/// Decodes the bytes strictly. It is not inlined, to keep the code of the fast path small.
#[inline(never)]
fn decode_strict_called<F: Flavor>(alloc: Global, bytes: &[u8]) -> Result<CowText<'_>, DecodeFault>
    ensures { DecodesStrictly F.flavor bytes.now result }
{
    decode_as::<F, EncodingAlone>(alloc, bytes)
}

/// Like `decode_as`, but replaces each ill-formed byte by U+FFFD.
#[inline(always)]
pub fn decode_lossy_as<F: Flavor, A: Accepts>(
    alloc: Global,
    bytes: &[u8],
) -> Result<CowText<'_>, AllocError>
    ensures { DecodesLossily F.flavor (Keeps A.mode F.flavor bytes.now)
        (ReadsLossily A.mode F.flavor bytes.now) bytes.now result }
{
    let Some(front) = prefix_unless_kept::<F, A>(bytes) else {
        return Ok(CowText::Borrowed(known_text(bytes)));
    };
    let built = codec::decode_lossy::<F>(alloc, bytes, front)?;
    Ok(CowText::Owned(built))
}
