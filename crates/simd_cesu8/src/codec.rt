//! All that this crate uses of the crates below it, for both flavors, except the kernels in
//! `implementation`. The functions here turn the errors of those crates into errors of this crate.

ghost use Rattle.std.specs.Prelude.{◌≡◌, length, IfOk};
ghost use Rattle.std.specs.Str.{chars};
ghost use Rattle.std.specs.String.{string_bytes, string_capacity};
ghost use Rattle.simd_cesu8.specs.Encoding.{encoding};
ghost use Rattle.simd_cesu8.specs.Reading.{IsStrictReading, HasNoStrictReading};
ghost use Rattle.cesu8_decode.specs.Modes.{Reads, ReadsLossily};
ghost use Rattle.cesu8_decode.specs.Prefixes.{IsProperPrefix};
ghost use Rattle.simd_cesu8.specs.Fault.{OnInvalid};
ghost use Rattle.simd_cesu8.specs.Slices.{WritesAnswer, WritesReading, WritesLossyReading};

pub mod encoding;

use crate::error::{DecodeFault, DecodeSliceFault, DecodingError, LossySliceFault, TooShort};
pub use cesu8_bytes::fast_paths::{
    begins_with_unchanged_ascii, is_short_unchanged_ascii, needs_encoded,
};
pub use cesu8_bytes::flavor::{Cesu8Flavor, Flavor, Mutf8Flavor};
pub use cesu8_bytes::lengths::{encoded_len, encoded_len_by_need, utf16_len};
pub use cesu8_bytes::order::compare_as_utf16;
use cesu8_bytes::strictness::{LossyReading, StrictReading};
pub use cesu8_bytes::utf8::known_text;
pub use cesu8_bytes::writing::copies::{copy, copy_text};
use cesu8_decode::error::{BuildError, WriteError};
pub use cesu8_decode::modes::{Accepts, EncodingAlone, Lenient, is_utf8, prefix_unless_kept};
use cesu8_decode::prefix::UnchangedPrefix;
use cesu8_decode::to_slice;
pub use cesu8_decode::valid::valid_up_to;
pub use cesu8_decode::{decode_lossy, decoded_len, lossy_len};
pub use cesu8_encode::{encode, encode_into};
use std::alloc::Global;

/// Decodes the bytes strictly, with one allocation of their length. `front` is their longest prefix
/// of whole characters that are the same in UTF-8. It must be shorter than the input.
#[inline(always)]
pub fn decode_strict<F: Flavor>(
    alloc: Global,
    bytes: &[u8],
    front: UnchangedPrefix,
) -> Result<String, DecodeFault>
    requires { IsProperPrefix F.flavor bytes.now front }
    ensures text { IfOk result (λ text.
        IsStrictReading F.flavor bytes.now (chars (string_bytes text))) }
    ensures capacity { IfOk result (λ text. string_capacity text ≡ length bytes.now) }
    ensures invalid { OnInvalid result (HasNoStrictReading F.flavor bytes.now) }
{
    match cesu8_decode::decode_strict::<F>(alloc, bytes, front) {
        Ok(text) => Ok(text),
        Err(BuildError::NoText) => Err(DecodeFault::Invalid(DecodingError(()))),
        Err(BuildError::Memory(error)) => Err(DecodeFault::Memory(error)),
    }
}

/// Writes the encoding of a string to a caller's buffer, if it fits.
#[inline(always)]
pub fn encode_to_slice<F: Flavor>(value: &str, buf: &mut [u8]) -> Result<usize, TooShort>
    ensures { WritesAnswer (encoding F.flavor (chars value.now)) result buf.old buf.new }
{
    match cesu8_encode::to_slice::encode_to_slice::<F>(value, buf) {
        Ok(len) => Ok(len),
        Err(no_room) => Err(TooShort::new(no_room.needed)),
    }
}

/// Decodes bytes in the mode `A`, and writes the text's UTF-8 to a caller's buffer, if it fits.
#[inline(always)]
pub fn decode_to_slice<F: Flavor, A: Accepts>(
    bytes: &[u8],
    buf: &mut [u8],
) -> Result<usize, DecodeSliceFault>
    ensures { WritesReading (Reads A.mode F.flavor bytes.now) result buf.old buf.new }
{
    match to_slice::decode_to_slice::<F, A, StrictReading>(bytes, buf) {
        Ok(len) => Ok(len),
        // The text is never longer than the input, so `TooLong` does not occur.
        Err(WriteError::NoText) | Err(WriteError::TooLong) => {
            Err(DecodeSliceFault::Invalid(DecodingError(())))
        }
        Err(WriteError::NoRoom(no_room)) => {
            Err(DecodeSliceFault::TooShort(TooShort::new(no_room.needed)))
        }
    }
}

/// Like `decode_to_slice`, but writes U+FFFD for each ill-formed byte. This makes three bytes of
/// one, so the length may not fit `usize`.
#[inline(always)]
pub fn decode_lossy_to_slice<F: Flavor, A: Accepts>(
    bytes: &[u8],
    buf: &mut [u8],
) -> Result<usize, LossySliceFault>
    ensures { WritesLossyReading (ReadsLossily A.mode F.flavor bytes.now) result buf.old buf.new }
{
    match to_slice::decode_to_slice::<F, A, LossyReading>(bytes, buf) {
        Ok(len) => Ok(len),
        // All bytes have a lossy reading, so `NoText` does not occur.
        Err(WriteError::NoText) | Err(WriteError::TooLong) => Err(LossySliceFault::TooLong),
        Err(WriteError::NoRoom(no_room)) => {
            Err(LossySliceFault::TooShort(TooShort::new(no_room.needed)))
        }
    }
}
